// What a call that fills a buffer comes to, on plain values.
ghost use Rattle.std.specs.Prelude.{◌≡◌, ℕ, ℤ, ◌+◌, ◌<◌, ◌≤◌, Option, Some, None, List, length, unsigned_abs, IfSome};
ghost use Rattle.std.specs.Option.{option_map};
ghost use Rattle.gl_calls.specs.declared.call.Call.TheVariants as call;
ghost use Rattle.gl_calls.specs.declared.payload.Payload.{Payload};
ghost use Rattle.gl_calls.specs.declared.reply.Reply.TheVariants as reply;
ghost use Rattle.gl_calls.specs.declared.words.BufferTarget.{BufferTarget};
ghost use Rattle.gl_calls.specs.declared.words.Usage.{Usage};
ghost use Rattle.gl_calls.specs.Words.{payload_len, payload_bytes};
ghost use Rattle.tables.specs.Table.{Entries};
ghost use Rattle.gl_model.specs.declared.objects.BufferFacts.{BufferFacts};
ghost use Rattle.gl_model.specs.declared.state.Context.{Context};
ghost use Rattle.gl_model.specs.declared.state.GroupState.{GroupState};
ghost use Rattle.gl_model.specs.Bindings.{current_context};
ghost use Rattle.gl_model.specs.GroupEffect.{group_effect};
ghost use Rattle.back_core.specs.Link.{Link};
ghost use Rattle.back_core.specs.Needs.{IsOfGroup};
ghost use Rattle.front_model.specs.declared.object.Object.TheVariants.{Buffer};
ghost use Rattle.front_model.specs.Face.{Face, put_object, outline_at, view};
ghost use Rattle.front_model.specs.Stands.{Holds, Owns, Moved, no_hands};
ghost use Rattle.front_model.specs.Wanted.{IsBound, HasBound, with_bytes};
ghost use Rattle.front_moves.specs.Core.{CoreParts, face, HasBytes, IsQuietBut, outline_of_size, new_cells};
ghost use Rattle.front_core.specs.Share.{MayCall, IsCarriedOut, HaveIndexes, current_index};
ghost use Rattle.front_core.specs.Filled.{IsFilled};

use front_model::{
    accepted_calls_are_in_range, calls_keep_agreement, calls_keep_stores, steps_may,
};
use gl_model::{buffers_have_their_sizes, group_is_a_projection};

/// What is known where a call that fills a buffer was accepted, and what has been done once the buffer has the bytes.
pub(crate) fn data_calls_come_to()
    ensures owns { (f : Face) (s : Link) → Holds f no_hands s → Owns f.objects s }
    ensures may_data { (f : Face) (s : Link) (group : GroupState) (thread : ℕ) (target : BufferTarget) (size : ℤ) (usage : Usage) (payload : Option Payload) → MayCall f s group thread (call.BufferData target size usage payload) →
        (context : Context) × (current_context group thread ≡ Some context) × HasBound group context target (λ b facts. Unit {0}) }
    ensures its_data { (f : Face) (s : Link) (group : GroupState) (thread : ℕ) (target : BufferTarget) (size : ℤ) (usage : Usage) (payload : Option Payload) → MayCall f s group thread (call.BufferData target size usage payload) →
        IfSome payload (λ p. payload_len p ≡ unsigned_abs size) }
    ensures may_sub { (f : Face) (s : Link) (group : GroupState) (thread : ℕ) (target : BufferTarget) (offset : ℤ) (payload : Payload) → MayCall f s group thread (call.BufferSubData target offset payload) →
        (context : Context) × (current_context group thread ≡ Some context) × HasBound group context target (λ b facts. (facts.map ≡ None) × (unsigned_abs offset + payload_len payload ≤ facts.size)) }
    ensures index { (group : GroupState) (serials : Entries ℕ) (owner thread : ℕ) (context : Context) → HaveIndexes group.contexts serials owner → current_context group thread ≡ Some context →
        (i : ℕ) × (current_index group serials thread ≡ Some i) × IsOfGroup owner i }
    ensures renewed { (f g : Face) (s t : Link) (group after : GroupState) (thread b : ℕ) (target : BufferTarget) (size : ℤ) (usage : Usage) (payload : Option Payload) → MayCall f s group thread (call.BufferData target size usage payload) →
        ((context : Context) → current_context group thread ≡ Some context → (facts : BufferFacts) × IsBound group context target b facts) →
        Moved g t (put_object (view f s) (Buffer b) (new_cells (option_map payload_bytes payload))) (put_object (outline_at f) (Buffer b) (outline_of_size (unsigned_abs size))) (IsQuietBut f s (Buffer b)) →
        after ≡ group_effect group thread (call.BufferData target size usage payload) →
        IsCarriedOut f g s t group after thread (call.BufferData target size usage payload) reply.Done }
    ensures filled { (f g : Face) (s t : Link) (group : GroupState) (thread b : ℕ) (facts : BufferFacts) (target : BufferTarget) (offset : ℤ) (payload : Payload) → MayCall f s group thread (call.BufferSubData target offset payload) →
        ((context : Context) → current_context group thread ≡ Some context → IsBound group context target b facts) →
        IsFilled f g s t b facts.size (unsigned_abs offset) (payload_bytes payload) →
        IsCarriedOut f g s t group group thread (call.BufferSubData target offset payload) reply.Done }
{
    steps_may();
    accepted_calls_are_in_range();
    calls_keep_agreement();
    calls_keep_stores();
    buffers_have_their_sizes();
    group_is_a_projection();
}

/// Where a buffer has bytes after a move.
pub(crate) fn buffers_are_filled()
    ensures owns { (f : Face) (s : Link) → Holds f no_hands s → Owns f.objects s }
    ensures nothing { (f : Face) (s : Link) (b size at : ℕ) (bytes : List ℕ) → Holds f no_hands s → length bytes ≡ 0 → IsFilled f f s s b size at bytes }
    ensures store { (f g : Face) (s t : Link) (b size at : ℕ) (bytes : List ℕ) → outline_at f (Buffer b) ≡ outline_of_size size → at ≡ 0 → length bytes ≡ size →
        Moved g t (put_object (view f s) (Buffer b) (new_cells (Some bytes))) (put_object (outline_at f) (Buffer b) (outline_of_size (length bytes))) (IsQuietBut f s (Buffer b)) →
        IsFilled f g s t b size at bytes }
    ensures upload { (f g : Face) (s t : Link) (b size at : ℕ) (bytes : List ℕ) →
        Moved g t (put_object (view f s) (Buffer b) (with_bytes (view f s (Buffer b)) at bytes)) (outline_at f) (IsQuietBut f s (Buffer b)) →
        IsFilled f g s t b size at bytes }
    ensures has_store { (c : CoreParts) (b size : ℕ) → 0 < size → outline_at (face c) (Buffer b) ≡ outline_of_size size → HasBytes (face c) b size }
{
    steps_may();
}
