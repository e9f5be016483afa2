// What the calls on buffers do to what the objects are to hold, and what is known where they are accepted.
ghost use Rattle.std.specs.Prelude.{◌≡◌, ◌≢◌, ℕ, ℤ, ◌+◌, ◌<◌, ◌≤◌, ◌==◌, ◌⊎◌, List, [], length, Option, Some, None, unsigned_abs, true, false, if◌then◌else◌};
ghost use Rattle.cells.specs.Contents.{cells, cell_at, Agrees};
ghost use Rattle.gl_calls.specs.declared.call.Call.{Call};
ghost use Rattle.gl_calls.specs.declared.call.Call.TheVariants as call;
ghost use Rattle.gl_calls.specs.declared.words.BufferTarget.{BufferTarget};
ghost use Rattle.gl_calls.specs.declared.words.ObjectKind.TheVariants as kinds;
ghost use Rattle.gl_calls.specs.declared.words.AccessWord.{AccessWord};
ghost use Rattle.gl_calls.specs.declared.words.Usage.{Usage};
ghost use Rattle.gl_calls.specs.declared.payload.Payload.{Payload};
ghost use Rattle.gl_calls.specs.declared.reply.Entry.{Entry};
ghost use Rattle.gl_calls.specs.declared.reply.Reply.{Reply};
ghost use Rattle.gl_calls.specs.declared.reply.Reply.TheVariants as reply;
ghost use Rattle.gl_calls.specs.Words.{payload_bytes, payload_len};
ghost use Rattle.tables.specs.Table.{entry};
ghost use Rattle.gl_model.specs.declared.objects.BufferFacts.{BufferFacts};
ghost use Rattle.gl_model.specs.declared.objects.Mapped.{Mapped};
ghost use Rattle.gl_model.specs.declared.state.Context.{Context};
ghost use Rattle.gl_model.specs.Bindings.{buffer_binding};
ghost use Rattle.gl_model.specs.BufferEffect.{data_cells};
ghost use Rattle.gl_model.specs.GroupEffect.{group_effect, swept};
ghost use Rattle.gl_model.specs.GroupModel.{GroupModel};
ghost use Rattle.gl_model.specs.Effect.{effect};
ghost use Rattle.gl_model.specs.Legal.{Answers, after_entry, refused, told};
ghost use Rattle.gl_model.specs.Reached.{changed_buffer, changed_images, reached};
ghost use Rattle.gl_model.specs.Refusal.{refusal};
ghost use Rattle.gl_model.specs.Sizes.{HasSizes};
ghost use Rattle.front_model.specs.declared.object.Object.{Object};
ghost use Rattle.front_model.specs.declared.object.Object.TheVariants.{Buffer};
ghost use Rattle.front_model.specs.Face.{put_object};
ghost use Rattle.front_model.specs.Wanted.{buffer_kind, kind_wanted, wanted, AgreeWith, exists, IsMapped, IsAccepted, IsBound, HasBound, HasFreeNumbers, HasMapRange, IsPositive, with_bytes, with_copy};
ghost use Rattle.front_model.specs.Calls.{makes_storage};

use gl_model::{group_is_a_projection, images_after_an_effect, stores_after_an_effect};

/// What a call is known to name where it is accepted.
pub fn accepted_calls_are_in_range()
    ensures data { (state : GroupModel) (thread : ℕ) (context : Context) (target : BufferTarget) (size : ℤ) (usage : Usage) (payload : Option Payload) →
        IsAccepted state thread (call.BufferData target size usage payload) context → IsPositive size × HasBound state.group context target (λ b facts. Unit {0}) }
    ensures sub { (state : GroupModel) (thread : ℕ) (context : Context) (target : BufferTarget) (offset : ℤ) (payload : Payload) →
        IsAccepted state thread (call.BufferSubData target offset payload) context →
        HasBound state.group context target (λ b facts. (facts.map ≡ None) × (unsigned_abs offset + payload_len payload ≤ facts.size)) }
    ensures copy { (state : GroupModel) (thread : ℕ) (context : Context) (from to : BufferTarget) (read write size : ℤ) →
        IsAccepted state thread (call.CopyBufferSubData from to read write size) context →
        HasBound state.group context from (λ r source. (source.map ≡ None) × (unsigned_abs read + unsigned_abs size ≤ source.size)
        × HasBound state.group context to (λ w target. (target.map ≡ None) × (unsigned_abs write + unsigned_abs size ≤ target.size)
        × (r ≡ w → (unsigned_abs read + unsigned_abs size ≤ unsigned_abs write) ⊎ (unsigned_abs write + unsigned_abs size ≤ unsigned_abs read)))) }
    ensures map { (state : GroupModel) (thread : ℕ) (context : Context) (target : BufferTarget) (offset len : ℤ) (access : AccessWord) →
        IsAccepted state thread (call.MapBufferRange target offset len access) context →
        HasBound state.group context target (λ b facts. (facts.map ≡ None) × (1 ≤ unsigned_abs len) × (unsigned_abs offset + unsigned_abs len ≤ facts.size)) }
    ensures map_read { (state : GroupModel) (thread : ℕ) (context : Context) (target : BufferTarget) (offset len : ℤ) →
        IsAccepted state thread (call.MapRead target offset len) context →
        HasBound state.group context target (λ b facts. HasMapRange facts (unsigned_abs offset) (unsigned_abs len)) }
    ensures map_write { (state : GroupModel) (thread : ℕ) (context : Context) (target : BufferTarget) (offset : ℤ) (payload : Payload) →
        IsAccepted state thread (call.MapWrite target offset payload) context →
        HasBound state.group context target (λ b facts. HasMapRange facts (unsigned_abs offset) (payload_len payload)) }
{}

/// What agrees with the state before a call agrees, changed as the call says, with the state after it.
pub fn calls_keep_agreement()
    ensures data { (state : GroupModel) (thread place b : ℕ) (context : Context) (facts : BufferFacts) (target : BufferTarget) (size : ℤ) (usage : Usage) (payload : Option Payload) (seen : Object → ℕ → ℕ) →
        IsAccepted state thread (call.BufferData target size usage payload) context → IsBound state.group context target b facts →
        AgreeWith seen (wanted state) →
        AgreeWith (put_object seen (Buffer b) (cell_at (data_cells (unsigned_abs size) payload))) (wanted (effect state thread (call.BufferData target size usage payload) place)) }
    ensures sub { (state : GroupModel) (thread place b : ℕ) (context : Context) (facts : BufferFacts) (target : BufferTarget) (offset : ℤ) (payload : Payload) (seen : Object → ℕ → ℕ) →
        IsAccepted state thread (call.BufferSubData target offset payload) context → IsBound state.group context target b facts →
        AgreeWith seen (wanted state) →
        AgreeWith (put_object seen (Buffer b) (with_bytes (seen (Buffer b)) (unsigned_abs offset) (payload_bytes payload))) (wanted (effect state thread (call.BufferSubData target offset payload) place)) }
    ensures copy { (state : GroupModel) (thread place r w : ℕ) (context : Context) (source facts : BufferFacts) (from to : BufferTarget) (read write size : ℤ) (seen : Object → ℕ → ℕ) →
        IsAccepted state thread (call.CopyBufferSubData from to read write size) context → IsBound state.group context from r source → IsBound state.group context to w facts →
        AgreeWith seen (wanted state) →
        AgreeWith (put_object seen (Buffer w) (with_copy (seen (Buffer w)) (unsigned_abs write) (unsigned_abs size) (seen (Buffer r)) (unsigned_abs read)))
        (wanted (effect state thread (call.CopyBufferSubData from to read write size) place)) }
    ensures map_write { (state : GroupModel) (thread place b : ℕ) (context : Context) (facts : BufferFacts) (mapped : Mapped) (target : BufferTarget) (offset : ℤ) (payload : Payload) (seen : Object → ℕ → ℕ) →
        IsAccepted state thread (call.MapWrite target offset payload) context → IsBound state.group context target b facts → facts.map ≡ Some mapped →
        AgreeWith seen (wanted state) →
        AgreeWith (put_object seen (Buffer b) (with_bytes (seen (Buffer b)) (mapped.at + unsigned_abs offset) (payload_bytes payload))) (wanted (effect state thread (call.MapWrite target offset payload) place)) }
    // these make cells undefined at most
    ensures map { (state : GroupModel) (thread place : ℕ) (context : Context) (target : BufferTarget) (offset len : ℤ) (access : AccessWord) (seen : Object → ℕ → ℕ) →
        IsAccepted state thread (call.MapBufferRange target offset len access) context → AgreeWith seen (wanted state) →
        AgreeWith seen (wanted (effect state thread (call.MapBufferRange target offset len access) place)) }
    ensures flush { (state : GroupModel) (thread place : ℕ) (context : Context) (target : BufferTarget) (offset len : ℤ) (seen : Object → ℕ → ℕ) →
        IsAccepted state thread (call.FlushMappedBufferRange target offset len) context → AgreeWith seen (wanted state) →
        AgreeWith seen (wanted (effect state thread (call.FlushMappedBufferRange target offset len) place)) }
    ensures unmap { (state : GroupModel) (thread place : ℕ) (context : Context) (target : BufferTarget) (seen : Object → ℕ → ℕ) →
        IsAccepted state thread (call.UnmapBuffer target) context → AgreeWith seen (wanted state) →
        AgreeWith seen (wanted (effect state thread (call.UnmapBuffer target) place)) }
    ensures delete { (state : GroupModel) (thread place name : ℕ) (context : Context) (seen : Object → ℕ → ℕ) →
        IsAccepted state thread (call.Delete kinds.Buffer name) context → AgreeWith seen (wanted state) →
        AgreeWith seen (wanted (effect state thread (call.Delete kinds.Buffer name) place)) }
    // all calls that name no buffer and no image that they change
    ensures others { (state : GroupModel) (thread place : ℕ) (asked : Call) (seen : Object → ℕ → ℕ) →
        changed_buffer state.group thread asked ≡ None → changed_images state.group thread asked ≡ [] → AgreeWith seen (wanted state) →
        AgreeWith seen (wanted (effect state thread asked place)) }
    ensures refused { (state : GroupModel) (thread : ℕ) (answer : Reply) (seen : Object → ℕ → ℕ) → AgreeWith seen (wanted state) →
        AgreeWith seen (wanted (refused state thread answer)) }
    ensures told { (state : GroupModel) (asked : Call) (answer : Reply) (seen : Object → ℕ → ℕ) → AgreeWith seen (wanted state) →
        AgreeWith seen (wanted (told state asked answer)) }
{
    group_is_a_projection();
    stores_after_an_effect();
    images_after_an_effect();
}

/// The stores that the objects are to have after a call, and which buffers are mapped.
pub fn calls_keep_stores()
    ensures data { (state : GroupModel) (thread b : ℕ) (context : Context) (facts : BufferFacts) (target : BufferTarget) (size : ℤ) (usage : Usage) (payload : Option Payload) →
        IsAccepted state thread (call.BufferData target size usage payload) context → IsBound state.group context target b facts → (o : Object) →
        kind_wanted (group_effect state.group thread (call.BufferData target size usage payload)) o
        ≡ put_object (kind_wanted state.group) (Buffer b) (buffer_kind (unsigned_abs size)) o }
    // an object that no longer exists has no store, and each other one has the store that it had
    ensures others { (state : GroupModel) (thread : ℕ) (asked : Call) → HasSizes state → HasFreeNumbers state.group → makes_storage asked ≡ false → (o : Object) →
        kind_wanted (group_effect state.group thread asked) o
        ≡ (if exists (group_effect state.group thread asked) o then kind_wanted state.group o else None) }
    ensures stays { (state : GroupModel) (thread : ℕ) (asked : Call) (o : Object) → HasSizes state →
        exists (group_effect state.group thread asked) o ≡ true → kind_wanted state.group o ≢ None → exists state.group o ≡ true }
    ensures refused { (state : GroupModel) (thread : ℕ) (answer : Reply) (o : Object) → kind_wanted (refused state thread answer).group o ≡ kind_wanted state.group o }
    // maps
    ensures unmapped { (state : GroupModel) (thread b : ℕ) (context : Context) (facts : BufferFacts) (target : BufferTarget) (size : ℤ) (usage : Usage) (payload : Option Payload) →
        IsAccepted state thread (call.BufferData target size usage payload) context → IsBound state.group context target b facts → (c : ℕ) →
        IsMapped (group_effect state.group thread (call.BufferData target size usage payload)) c → IsMapped state.group c × (c ≢ b) }
    ensures mapped { (state : GroupModel) (thread b : ℕ) (context : Context) (facts : BufferFacts) (target : BufferTarget) (offset len : ℤ) (access : AccessWord) →
        IsAccepted state thread (call.MapBufferRange target offset len access) context → IsBound state.group context target b facts → (c : ℕ) →
        IsMapped (group_effect state.group thread (call.MapBufferRange target offset len access)) c → IsMapped state.group c ⊎ (c ≡ b) }
    ensures maps { (state : GroupModel) (thread : ℕ) (asked : Call) → HasSizes state →
        ((target : BufferTarget) (offset len : ℤ) (access : AccessWord) → asked ≢ call.MapBufferRange target offset len access) → (c : ℕ) →
        IsMapped (group_effect state.group thread asked) c → IsMapped state.group c }
    ensures maps_stay { (state : GroupModel) (thread c : ℕ) (answer : Reply) → IsMapped (refused state thread answer).group c → IsMapped state.group c }
{}

/// Numbers of textures and renderbuffers that were not given yet are free in each reached state.
pub fn numbers_not_given_are_free()
    ensures reached { (threads : List ℕ) (history : List Entry) → HasFreeNumbers (reached threads history).group }
    ensures entry { (state : GroupModel) (e : Entry) (place : ℕ) → HasFreeNumbers state.group → HasFreeNumbers (after_entry state e place).group }
    ensures effect { (state : GroupModel) (thread : ℕ) (asked : Call) (place : ℕ) →
        HasFreeNumbers state.group → refusal state.group thread asked ≡ None → HasFreeNumbers (effect state thread asked place).group }
{
    group_is_a_projection();
}

/// Bytes that agree with what is seen are an answer to a read through a map.
pub fn reads_through_a_map_answer()
    ensures read { (state : GroupModel) (thread b : ℕ) (context : Context) (facts : BufferFacts) (mapped : Mapped) (target : BufferTarget) (offset len : ℤ) (seen : Object → ℕ → ℕ) (out : List ℕ) →
        IsAccepted state thread (call.MapRead target offset len) context → IsBound state.group context target b facts → facts.map ≡ Some mapped →
        AgreeWith seen (wanted state) → Agrees out (cells (unsigned_abs len) (λ k. seen (Buffer b) (mapped.at + unsigned_abs offset + k))) →
        Answers state thread (call.MapRead target offset len) (reply.Bytes out) }
{}
