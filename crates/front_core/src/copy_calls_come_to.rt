// What a copy between buffers and a map of one come to, on plain values.
ghost use Rattle.std.specs.Prelude.{◌≡◌, ◌≢◌, ℕ, ℤ, ◌<◌, Some, None, unsigned_abs};
ghost use Rattle.gl_calls.specs.declared.call.Call.TheVariants as call;
ghost use Rattle.gl_calls.specs.declared.reply.Reply.TheVariants as reply;
ghost use Rattle.gl_calls.specs.declared.words.AccessWord.{AccessWord};
ghost use Rattle.gl_calls.specs.declared.words.BufferTarget.{BufferTarget};
ghost use Rattle.tables.specs.Table.{Entries};
ghost use Rattle.gl_model.specs.declared.state.Context.{Context};
ghost use Rattle.gl_model.specs.declared.state.GroupState.{GroupState};
ghost use Rattle.gl_model.specs.Bindings.{current_context};
ghost use Rattle.gl_model.specs.GroupEffect.{group_effect};
ghost use Rattle.back_core.specs.Link.{Link};
ghost use Rattle.back_core.specs.Needs.{IsOfGroup};
ghost use Rattle.front_model.specs.declared.object.Object.TheVariants.{Buffer};
ghost use Rattle.front_model.specs.Face.{Face, put_object, outline_at, view};
ghost use Rattle.front_model.specs.Stands.{Holds, Owns, Moved, IsQuiet, no_hands};
ghost use Rattle.front_model.specs.Wanted.{HasBound, with_copy};
ghost use Rattle.front_moves.specs.Core.{CoreParts, face, HasBytes, IsQuietBut};
ghost use Rattle.front_core.specs.Copies.{IsNamed, MayCopy};
ghost use Rattle.front_core.specs.Share.{MayCall, IsCarriedOut, HaveIndexes, current_index};

use front_model::{
    accepted_calls_are_in_range, calls_keep_agreement, calls_keep_stores, steps_may,
};

/// Which buffers a copy and a map name, what they need of them, and what has been done once they were carried out.
pub(crate) fn copy_calls_come_to()
    ensures owns { (f : Face) (s : Link) → Holds f no_hands s → Owns f.objects s }
    ensures index { (group : GroupState) (serials : Entries ℕ) (number thread : ℕ) (context : Context) → HaveIndexes group.contexts serials number →
        current_context group thread ≡ Some context → current_index group serials thread ≢ None }
    ensures own { (group : GroupState) (serials : Entries ℕ) (number thread i : ℕ) → HaveIndexes group.contexts serials number →
        current_index group serials thread ≡ Some i → IsOfGroup number i }
    // a copy
    ensures copy_names { (f : Face) (s : Link) (group : GroupState) (thread : ℕ) (from to : BufferTarget) (read write size : ℤ) →
        MayCall f s group thread (call.CopyBufferSubData from to read write size) →
        (context : Context) × (current_context group thread ≡ Some context) × HasBound group context from (λ r source. HasBound group context to (λ w target. Unit {0})) }
    ensures copy_may { (c : CoreParts) (s : Link) (group : GroupState) (thread r w : ℕ) (from to : BufferTarget) (read write size : ℤ) →
        MayCall (face c) s group thread (call.CopyBufferSubData from to read write size) → IsNamed group thread from r → IsNamed group thread to w →
        0 < unsigned_abs size → MayCopy (face c) r (unsigned_abs read) w (unsigned_abs write) (unsigned_abs size) }
    ensures copied { (f g : Face) (s t : Link) (group : GroupState) (thread r w : ℕ) (from to : BufferTarget) (read write size : ℤ) →
        MayCall f s group thread (call.CopyBufferSubData from to read write size) → IsNamed group thread from r → IsNamed group thread to w →
        Moved g t (put_object (view f s) (Buffer w) (with_copy (view f s (Buffer w)) (unsigned_abs write) (unsigned_abs size) (view f s (Buffer r)) (unsigned_abs read)))
        (outline_at f) (λ o. IsQuietBut f s (Buffer w) o × (o ≢ Buffer r)) →
        IsCarriedOut f g s t group group thread (call.CopyBufferSubData from to read write size) reply.Done }
    // a map
    ensures map_names { (f : Face) (s : Link) (group : GroupState) (thread : ℕ) (target : BufferTarget) (offset len : ℤ) (access : AccessWord) →
        MayCall f s group thread (call.MapBufferRange target offset len access) →
        (context : Context) × (current_context group thread ≡ Some context) × HasBound group context target (λ b facts. Unit {0}) }
    ensures map_may { (c : CoreParts) (s : Link) (group : GroupState) (thread b : ℕ) (target : BufferTarget) (offset len : ℤ) (access : AccessWord) →
        MayCall (face c) s group thread (call.MapBufferRange target offset len access) → IsNamed group thread target b →
        (size : ℕ) × HasBytes (face c) b size }
    ensures mapped { (f g : Face) (s t : Link) (group : GroupState) (thread b : ℕ) (target : BufferTarget) (offset len : ℤ) (access : AccessWord) →
        MayCall f s group thread (call.MapBufferRange target offset len access) → IsNamed group thread target b →
        Moved g t (view f s) (outline_at f) (IsQuiet f s) → IsQuiet g t (Buffer b) →
        IsCarriedOut f g s t group (group_effect group thread (call.MapBufferRange target offset len access)) thread (call.MapBufferRange target offset len access) reply.Done }
{
    steps_may();
    accepted_calls_are_in_range();
    calls_keep_agreement();
    calls_keep_stores();
}
