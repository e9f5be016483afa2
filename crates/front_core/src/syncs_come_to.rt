// What calls come to for the serials of syncs, on plain values.
ghost use Rattle.std.specs.Prelude.{◌≡◌, ℕ, ◌+◌, ◌≤◌, Bool, true, false, Some, None, IsSome, List};
ghost use Rattle.gl_calls.specs.declared.call.Call.{Call};
ghost use Rattle.gl_calls.specs.declared.call.Call.TheVariants as call;
ghost use Rattle.gl_calls.specs.declared.reply.Reply.{Reply};
ghost use Rattle.gl_calls.specs.declared.reply.Reply.TheVariants as reply;
ghost use Rattle.tables.specs.Table.{Entries, has, only, with_entry};
ghost use Rattle.vk_types.specs.declared.batches.QueueSerial.{QueueSerial};
ghost use Rattle.gl_model.specs.declared.state.GroupState.{GroupState};
ghost use Rattle.gl_model.specs.GroupEffect.{group_effect};
ghost use Rattle.gl_model.specs.Refusal.{refusal};
ghost use Rattle.gl_model.specs.Syncs.{changes_syncs};
ghost use Rattle.back_core.specs.Link.{Link};
ghost use Rattle.back_core.specs.Needs.{IsOfGroup};
ghost use Rattle.front_model.specs.declared.object.Object.{Object};
ghost use Rattle.front_model.specs.Face.{Face};
ghost use Rattle.front_model.specs.Stands.{Holds, Owns, no_hands};
ghost use Rattle.front_moves.specs.Core.{CoreParts, face};
ghost use Rattle.front_moves.specs.Ending.{HasEnded};
ghost use Rattle.sync_serials.specs.declared.serials.SyncName.{SyncName};
ghost use Rattle.sync_serials.specs.declared.serials.SyncName.TheVariants.{Gl, Egl};
ghost use Rattle.sync_serials.specs.Serials.{SyncTables, HasGoneOn, serial_at, newest_of, with_sync, without_sync, makes, ends, asks, is_wait, leaves_contexts};
ghost use Rattle.front_core.specs.Answering.{IsWaitSync};
ghost use Rattle.front_core.specs.Gone.{objects_gone};
ghost use Rattle.front_core.specs.Share.{MayCall, Stays, IsCarriedOut, IsChanged, current_index};
ghost use Rattle.front_core.specs.Front.{MayServe, IsServed};
ghost use Rattle.front_core.specs.Polls.{IsMade, IsPoll, answer_by, timeout_of};

use front_model::{calls_keep_agreement, calls_keep_stores, steps_may};
use gl_model::{buffers_have_their_sizes, group_is_a_projection, images_have_their_sizes};
use sync_serials::{
    syncs_are_made_and_ended, syncs_are_signalled, syncs_of_contexts_stand, syncs_stand_on,
    waits_may_answer,
};

/// What is known of the syncs that an accepted call names.
pub(crate) fn syncs_are_there()
    ensures new { (f : Face) (s : Link) (group : GroupState) (serials : Entries ℕ) (tables : SyncTables) (thread : ℕ) (asked : Call) (x : SyncName) →
        MayServe f s group serials tables thread asked → makes asked x → serial_at tables x ≡ None }
    ensures found { (f : Face) (s : Link) (group : GroupState) (serials : Entries ℕ) (tables : SyncTables) (thread : ℕ) (asked : Call) (x : SyncName) →
        MayServe f s group serials tables thread asked → asks asked x → IsSome (serial_at tables x) }
    ensures found_by_wait { (f : Face) (s : Link) (group : GroupState) (serials : Entries ℕ) (tables : SyncTables) (thread number : ℕ) (asked : Call) →
        MayServe f s group serials tables thread asked → IsWaitSync asked number → IsSome (serial_at tables (Gl number)) }
    ensures made { (f : Face) (s : Link) (group : GroupState) (serials : Entries ℕ) (tables : SyncTables) (thread : ℕ) (asked : Call) (x : SyncName) (serial : QueueSerial) →
        MayServe f s group serials tables thread asked → serial_at tables x ≡ Some serial → IsMade f tables serial }
    ensures owns { (f : Face) (s : Link) → Holds f no_hands s → Owns f.objects s }
{
    steps_may();
    syncs_are_made_and_ended();
    waits_may_answer();
}

/// A call that was carried out was served: the serials of syncs go on standing.
pub(crate) fn syncs_come_to()
    ensures others { (f g : Face) (s t : Link) (group after : GroupState) (serials : Entries ℕ) (tables : SyncTables) (thread : ℕ) (asked : Call) (answer : Reply) →
        refusal group thread asked ≡ None → changes_syncs asked ≡ false → is_wait asked ≡ false → HasGoneOn f g s t →
        IsCarriedOut f g s t group after thread asked answer → IsServed f g s t group after serials serials tables tables thread asked answer }
    ensures created { (f g : Face) (s t : Link) (group after : GroupState) (serials : Entries ℕ) (tables : SyncTables) (thread number index : ℕ) (answer : Reply) →
        refusal group thread (call.CreateContext number) ≡ None → HasGoneOn f g s t → IsCarriedOut f g s t group after thread (call.CreateContext number) answer →
        IsServed f g s t group after serials (with_entry number index serials) tables tables thread (call.CreateContext number) answer }
    ensures left { (f g : Face) (s t : Link) (group after : GroupState) (serials : Entries ℕ) (tables : SyncTables) (thread : ℕ) (asked : Call) (answer : Reply) →
        refusal group thread asked ≡ None → leaves_contexts asked ≡ true → HasGoneOn f g s t → IsCarriedOut f g s t group after thread asked answer →
        IsServed f g s t group after serials (only (λ n. has n after.contexts) serials) tables tables thread asked answer }
    ensures made { (f g : Face) (s t : Link) (group after : GroupState) (serials : Entries ℕ) (tables : SyncTables) (thread : ℕ) (asked : Call) (answer : Reply) (x : SyncName) (serial : QueueSerial) →
        refusal group thread asked ≡ None → makes asked x → current_index group serials thread ≡ Some serial.index → IsOfGroup f.group serial.index →
        serial.number ≡ f.last serial.index + 1 → HasGoneOn f g s t → IsCarriedOut f g s t group after thread asked answer →
        IsServed f g s t group after serials serials tables (with_sync tables x serial) thread asked answer }
    ensures ended { (f g : Face) (s t : Link) (group after : GroupState) (serials : Entries ℕ) (tables : SyncTables) (thread : ℕ) (asked : Call) (answer : Reply) (x : SyncName) →
        refusal group thread asked ≡ None → ends asked x → HasGoneOn f g s t → IsCarriedOut f g s t group after thread asked answer →
        IsServed f g s t group after serials serials tables (without_sync tables x) thread asked answer }
    ensures finished { (f g : Face) (s t : Link) (group after : GroupState) (serials : Entries ℕ) (tables : SyncTables) (thread index : ℕ) (answer : Reply) →
        refusal group thread call.Finish ≡ None → current_index group serials thread ≡ Some index → newest_of tables index ≤ t.done index → HasGoneOn f g s t →
        IsCarriedOut f g s t group after thread call.Finish answer → IsServed f g s t group after serials serials tables tables thread call.Finish answer }
{
    syncs_stand_on();
    syncs_of_contexts_stand();
    syncs_are_made_and_ended();
    syncs_are_signalled();
}

/// A wait for a sync changes errors alone, and was served whatever the number that its index had completed.
pub(crate) fn waits_come_to()
    ensures changed { (c : CoreParts) (g : Face) (s t : Link) (group : GroupState) (thread : ℕ) (asked : Call) (ended : List Object) →
        is_wait asked ≡ true → MayCall (face c) s group thread asked → ended ≡ objects_gone group (group_effect group thread asked) →
        HasEnded (face c) g s t ended → IsChanged (face c) g s t group (group_effect group thread asked) thread asked }
    ensures contexts { (group : GroupState) (thread : ℕ) (asked : Call) → is_wait asked ≡ true → (group_effect group thread asked).contexts ≡ group.contexts }
    ensures served { (f h g : Face) (s u t : Link) (group after : GroupState) (serials : Entries ℕ) (tables : SyncTables) (thread : ℕ) (asked : Call) (x : SyncName) (signalled : Bool) →
        MayServe f s group serials tables thread asked → asks asked x → IsChanged f h s u group after thread asked → Stays h g u t → HasGoneOn f g s t →
        IsPoll tables s t x (timeout_of asked) signalled →
        IsServed f g s t group after serials serials tables tables thread asked (reply.Waited (answer_by asked signalled)) }
    ensures owns { (f : Face) (s : Link) → Holds f no_hands s → Owns f.objects s }
{
    steps_may();
    calls_keep_agreement();
    calls_keep_stores();
    buffers_have_their_sizes();
    images_have_their_sizes();
    group_is_a_projection();
    syncs_stand_on();
    syncs_are_signalled();
    waits_may_answer();
}
