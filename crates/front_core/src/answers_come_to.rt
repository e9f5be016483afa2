// What an answered call comes to, on plain values.
ghost use Rattle.std.specs.Prelude.{◌≡◌, ℕ, Some, None};
ghost use Rattle.gl_calls.specs.declared.call.Call.{Call};
ghost use Rattle.gl_calls.specs.declared.reply.Reply.{Reply};
ghost use Rattle.gl_model.specs.declared.state.GroupState.{GroupState};
ghost use Rattle.gl_model.specs.Legal.{refused_group};
ghost use Rattle.gl_model.specs.Refusal.{refusal};
ghost use Rattle.back_core.specs.Link.{Link};
ghost use Rattle.front_model.specs.Face.{Face};
ghost use Rattle.tables.specs.Table.{Entries};
ghost use Rattle.sync_serials.specs.Serials.{SyncTables};
ghost use Rattle.front_core.specs.Front.{MayAnswer, IsServed, IsAnswered};

use front_model::{calls_keep_agreement, calls_keep_stores};
use sync_serials::syncs_stand_on;

/// A call that is refused or was carried out was answered.
pub(crate) fn answers_come_to()
    ensures refused { (f : Face) (s : Link) (group : GroupState) (serials : Entries ℕ) (tables : SyncTables) (thread : ℕ) (asked : Call) (answer : Reply) → MayAnswer f s group serials tables thread asked → refusal group thread asked ≡ Some answer →
        IsAnswered f f s s group (refused_group group thread answer) serials serials tables tables thread asked answer }
    ensures accepted { (f g : Face) (s t : Link) (group after : GroupState) (serials later : Entries ℕ) (tables now : SyncTables) (thread : ℕ) (asked : Call) (answer : Reply) → refusal group thread asked ≡ None →
        IsServed f g s t group after serials later tables now thread asked answer → IsAnswered f g s t group after serials later tables now thread asked answer }
{
    calls_keep_agreement();
    calls_keep_stores();
    syncs_stand_on();
}
