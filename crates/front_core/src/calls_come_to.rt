// What a call that reaches into buffers comes to, on plain values.
ghost use Rattle.std.specs.Prelude.{◌≡◌, ℕ, ℤ, ◌+◌, ◌≤◌, Some, List, unsigned_abs};
ghost use Rattle.cells.specs.Contents.{cells, Agrees};
ghost use Rattle.gl_calls.specs.declared.call.Call.TheVariants as call;
ghost use Rattle.gl_calls.specs.declared.payload.Payload.{Payload};
ghost use Rattle.gl_calls.specs.declared.reply.Reply.TheVariants as reply;
ghost use Rattle.gl_calls.specs.declared.words.BufferTarget.{BufferTarget};
ghost use Rattle.gl_calls.specs.Words.{payload_len, payload_bytes};
ghost use Rattle.gl_model.specs.declared.state.Context.{Context};
ghost use Rattle.gl_model.specs.declared.state.GroupState.{GroupState};
ghost use Rattle.gl_model.specs.declared.objects.BufferFacts.{BufferFacts};
ghost use Rattle.gl_model.specs.declared.objects.Mapped.{Mapped};
ghost use Rattle.gl_model.specs.Bindings.{current_context};
ghost use Rattle.back_core.specs.Link.{Link};
ghost use Rattle.front_model.specs.declared.object.Object.TheVariants.{Buffer};
ghost use Rattle.front_model.specs.Face.{Face, put_object, outline_at, view};
ghost use Rattle.front_model.specs.Stands.{Holds, Owns, Moved, IsQuiet, no_hands};
ghost use Rattle.front_model.specs.Wanted.{IsBound, HasBound, HasMapRange, with_bytes};
ghost use Rattle.front_moves.specs.Core.{CoreParts, face};
ghost use Rattle.front_core.specs.Share.{MayCall, IsCarriedOut};

use front_model::{
    accepted_calls_are_in_range, calls_keep_agreement, reads_through_a_map_answer, steps_may,
};

/// Where a call reaches into the map of a buffer, and what has been done once it did.
pub(crate) fn map_calls_come_to()
    ensures owns { (f : Face) (s : Link) → Holds f no_hands s → Owns f.objects s }
    ensures may_read { (f : Face) (s : Link) (group : GroupState) (thread : ℕ) (target : BufferTarget) (offset len : ℤ) → MayCall f s group thread (call.MapRead target offset len) →
        (context : Context) × (current_context group thread ≡ Some context) × HasBound group context target (λ b facts. HasMapRange facts (unsigned_abs offset) (unsigned_abs len)) }
    ensures may_write { (f : Face) (s : Link) (group : GroupState) (thread : ℕ) (target : BufferTarget) (offset : ℤ) (payload : Payload) → MayCall f s group thread (call.MapWrite target offset payload) →
        (context : Context) × (current_context group thread ≡ Some context) × HasBound group context target (λ b facts. HasMapRange facts (unsigned_abs offset) (payload_len payload)) }
    ensures read { (f g : Face) (s t : Link) (group : GroupState) (thread b place : ℕ) (target : BufferTarget) (offset len : ℤ) (out : List ℕ) → MayCall f s group thread (call.MapRead target offset len) →
        ((context : Context) → current_context group thread ≡ Some context → (facts : BufferFacts) × (mapped : Mapped) × IsBound group context target b facts × (facts.map ≡ Some mapped) × (mapped.at ≡ place) × (facts.size ≤ 18446744073709551615)) →
        Moved g t (view f s) (outline_at f) (IsQuiet f s) → Agrees out (cells (unsigned_abs len) (λ k. view f s (Buffer b) (place + unsigned_abs offset + k))) →
        IsCarriedOut f g s t group group thread (call.MapRead target offset len) (reply.Bytes out) }
    ensures write { (f : Face) (s t : Link) (group : GroupState) (thread b place : ℕ) (target : BufferTarget) (offset : ℤ) (payload : Payload) → MayCall f s group thread (call.MapWrite target offset payload) →
        ((context : Context) → current_context group thread ≡ Some context → (facts : BufferFacts) × (mapped : Mapped) × IsBound group context target b facts × (facts.map ≡ Some mapped) × (mapped.at ≡ place) × (facts.size ≤ 18446744073709551615)) →
        Moved f t (put_object (view f s) (Buffer b) (with_bytes (view f s (Buffer b)) (place + unsigned_abs offset) (payload_bytes payload))) (outline_at f) (IsQuiet f s) →
        IsCarriedOut f f s t group group thread (call.MapWrite target offset payload) reply.Done }
{
    steps_may();
    accepted_calls_are_in_range();
    calls_keep_agreement();
    reads_through_a_map_answer();
}
