// When the serials of syncs go on standing beside the state, and what waits may answer.
ghost use Rattle.std.specs.Prelude.{◌≡◌, ℕ, ◌+◌, ◌≤◌, Bool, true, false, Some, None, IsSome, List, []};
ghost use Rattle.gl_calls.specs.declared.call.Call.{Call};
ghost use Rattle.gl_calls.specs.declared.call.Call.TheVariants as call;
ghost use Rattle.gl_calls.specs.declared.call.WaitEnd.{WaitEnd};
ghost use Rattle.gl_calls.specs.declared.reply.Entry.{Entry};
ghost use Rattle.gl_calls.specs.declared.reply.Reply.{Reply};
ghost use Rattle.gl_calls.specs.declared.reply.Reply.TheVariants as reply;
ghost use Rattle.tables.specs.Table.{Entries, has, only, with_entry};
ghost use Rattle.vk_types.specs.declared.batches.QueueSerial.{QueueSerial};
ghost use Rattle.gl_model.specs.GroupEffect.{group_effect};
ghost use Rattle.gl_model.specs.GroupModel.{GroupModel, opening};
ghost use Rattle.gl_model.specs.Legal.{Answers, after_entry, says_signalled};
ghost use Rattle.gl_model.specs.Refusal.{refusal};
ghost use Rattle.gl_model.specs.Syncs.{changes_syncs};
ghost use Rattle.back_core.specs.Link.{Link};
ghost use Rattle.back_core.specs.Needs.{IsOfGroup};
ghost use Rattle.front_model.specs.Face.{Face};
ghost use Rattle.sync_serials.specs.declared.serials.SyncName.{SyncName};
ghost use Rattle.sync_serials.specs.declared.serials.SyncName.TheVariants.{Gl, Egl};
ghost use Rattle.sync_serials.specs.Serials.{SyncTables, SyncsStand, HasGoneOn, no_syncs, serial_at, newest_of, with_sync, without_sync, index_on};
ghost use Rattle.sync_serials.specs.Serials.{makes, ends, asks, is_wait, leaves_contexts, waited, egl_waited};

/// Serials stand beside the opening state; they go on standing where batches are handed over and retired, after a call that was
/// refused, and after a call that makes, ends and asks for no sync and no context and is no Finish.
pub fn syncs_stand_on()
    ensures begins { (f : Face) (s : Link) (threads : List ℕ) → SyncsStand f s [] (no_syncs f.group) (opening threads) 0 }
    ensures goes_on { (f g : Face) (s t : Link) (ids : Entries ℕ) (tables : SyncTables) (state : GroupModel) (place : ℕ) →
        SyncsStand f s ids tables state place → HasGoneOn f g s t → SyncsStand g t ids tables state place }
    ensures refused { (f : Face) (s : Link) (ids : Entries ℕ) (tables : SyncTables) (state : GroupModel) (place : ℕ) (e : Entry)
        (answer : Reply) →
        SyncsStand f s ids tables state place → refusal state.group e.thread e.call ≡ Some answer →
        SyncsStand f s ids tables (after_entry state e place) (place + 1) }
    ensures others { (f : Face) (s : Link) (ids : Entries ℕ) (tables : SyncTables) (state : GroupModel) (place : ℕ) (e : Entry) →
        SyncsStand f s ids tables state place → refusal state.group e.thread e.call ≡ None →
        changes_syncs e.call ≡ false → is_wait e.call ≡ false →
        SyncsStand f s ids tables (after_entry state e place) (place + 1) }
{}

/// Serials go on standing where a context is created and gets an index, and where one is destroyed or taken and the indexes of
/// contexts that ended are dropped.
pub fn syncs_of_contexts_stand()
    ensures created { (f : Face) (s : Link) (ids : Entries ℕ) (tables : SyncTables) (state : GroupModel) (place number index : ℕ)
        (e : Entry) →
        SyncsStand f s ids tables state place → refusal state.group e.thread e.call ≡ None → e.call ≡ call.CreateContext number →
        SyncsStand f s (with_entry number index ids) tables (after_entry state e place) (place + 1) }
    ensures left { (f : Face) (s : Link) (ids : Entries ℕ) (tables : SyncTables) (state : GroupModel) (place : ℕ) (e : Entry) →
        SyncsStand f s ids tables state place → refusal state.group e.thread e.call ≡ None → leaves_contexts e.call ≡ true →
        SyncsStand f s (only (λ n. has n (group_effect state.group e.thread e.call).contexts) ids) tables (after_entry state e place) (place + 1) }
{}

/// Serials go on standing where a sync gets the next number of the index of the context that makes it, and where one is ended.
pub fn syncs_are_made_and_ended()
    ensures new { (f : Face) (s : Link) (ids : Entries ℕ) (tables : SyncTables) (state : GroupModel) (place : ℕ) (e : Entry)
        (x : SyncName) →
        SyncsStand f s ids tables state place → refusal state.group e.thread e.call ≡ None → makes e.call x →
        serial_at tables x ≡ None }
    ensures made { (f : Face) (s : Link) (ids : Entries ℕ) (tables : SyncTables) (state : GroupModel) (place : ℕ) (e : Entry)
        (x : SyncName) (serial : QueueSerial) →
        SyncsStand f s ids tables state place → refusal state.group e.thread e.call ≡ None → makes e.call x →
        index_on state.group ids e.thread ≡ Some serial.index → IsOfGroup f.group serial.index → serial.number ≡ f.last serial.index + 1 →
        SyncsStand f s ids (with_sync tables x serial) (after_entry state e place) (place + 1) }
    ensures ended { (f : Face) (s : Link) (ids : Entries ℕ) (tables : SyncTables) (state : GroupModel) (place : ℕ) (e : Entry)
        (x : SyncName) →
        SyncsStand f s ids tables state place → refusal state.group e.thread e.call ≡ None → ends e.call x →
        SyncsStand f s ids (without_sync tables x) (after_entry state e place) (place + 1) }
{}

/// Serials go on standing where a state learns that syncs are signalled: by a Finish after which all that the context made is
/// completed, and by a wait that says so only where the sync's number is completed.
pub fn syncs_are_signalled()
    ensures finished { (f : Face) (s : Link) (ids : Entries ℕ) (tables : SyncTables) (state : GroupModel) (place index : ℕ) (e : Entry) →
        SyncsStand f s ids tables state place → refusal state.group e.thread e.call ≡ None → e.call ≡ call.Finish →
        index_on state.group ids e.thread ≡ Some index → newest_of tables index ≤ s.done index →
        SyncsStand f s ids tables (after_entry state e place) (place + 1) }
    ensures asked { (f : Face) (s : Link) (ids : Entries ℕ) (tables : SyncTables) (state : GroupModel) (place : ℕ) (e : Entry)
        (x : SyncName) (serial : QueueSerial) →
        SyncsStand f s ids tables state place → refusal state.group e.thread e.call ≡ None → asks e.call x → serial_at tables x ≡ Some serial →
        (says_signalled e.reply ≡ true → serial.number ≤ s.done serial.index) →
        SyncsStand f s ids tables (after_entry state e place) (place + 1) }
{}

/// A wait for a sync finds its serial, and may answer by any number of its index that is completed.
pub fn waits_may_answer()
    ensures found { (f : Face) (s : Link) (ids : Entries ℕ) (tables : SyncTables) (state : GroupModel) (place thread : ℕ)
        (asked : Call) (x : SyncName) →
        SyncsStand f s ids tables state place → refusal state.group thread asked ≡ None → asks asked x → IsSome (serial_at tables x) }
    ensures found_by_wait { (f : Face) (s : Link) (ids : Entries ℕ) (tables : SyncTables) (state : GroupModel)
        (place thread number flags : ℕ) (end : WaitEnd) →
        SyncsStand f s ids tables state place → refusal state.group thread (call.WaitSync number flags end) ≡ None →
        IsSome (serial_at tables (Gl number)) }
    ensures answers { (f : Face) (s : Link) (ids : Entries ℕ) (tables : SyncTables) (state : GroupModel)
        (place thread number flags timeout completed : ℕ) (serial : QueueSerial) →
        SyncsStand f s ids tables state place → refusal state.group thread (call.ClientWaitSync number flags timeout) ≡ None →
        serial_at tables (Gl number) ≡ Some serial → s.done serial.index ≤ completed →
        Answers state thread (call.ClientWaitSync number flags timeout) (reply.Waited (waited serial.number completed timeout)) }
    ensures egl_answers { (f : Face) (s : Link) (ids : Entries ℕ) (tables : SyncTables) (state : GroupModel)
        (place thread number timeout completed : ℕ) (flush : Bool) (serial : QueueSerial) →
        SyncsStand f s ids tables state place → refusal state.group thread (call.EglClientWaitSync number flush timeout) ≡ None →
        serial_at tables (Egl number) ≡ Some serial → s.done serial.index ≤ completed →
        Answers state thread (call.EglClientWaitSync number flush timeout) (reply.Waited (egl_waited serial.number completed timeout)) }
{}
