// What an answered call comes to for a front's history, on plain values.
ghost use Rattle.std.specs.Prelude.{◌≡◌, ℕ, false, Contains, List, [], ◌∷◌, ◌++◌};
ghost use Rattle.gl_calls.specs.declared.call.Call.{Call};
ghost use Rattle.gl_calls.specs.declared.reply.Reply.{Reply};
ghost use Rattle.tables.specs.Table.{Entries};
ghost use Rattle.gl_model.specs.GroupState.{opening_group};
ghost use Rattle.gl_model.specs.declared.state.GroupState.{GroupState};
ghost use Rattle.gl_model.specs.GroupEffect.{swept};
ghost use Rattle.gl_model.specs.Sizes.{HasItsData};
ghost use Rattle.back_core.specs.Link.{Link, IsNew};
ghost use Rattle.front_model.specs.Face.{Face};
ghost use Rattle.front_model.specs.Stands.{Holds, Owns, no_hands};
ghost use Rattle.front_moves.specs.Core.{CoreParts, face};
ghost use Rattle.front_moves.specs.Ending.{HasClosed};
ghost use Rattle.sync_serials.specs.Serials.{SyncTables, no_syncs};
ghost use Rattle.front_core.specs.Share.{HaveIndexes};
ghost use Rattle.front_core.specs.Front.{FrontModel, FrontStands, IsNewFront, MayAnswer, IsAnswered, entry_of};

use front_model::{numbers_not_given_are_free, steps_may};
use gl_model::{
    buffers_have_their_sizes, group_is_a_projection, images_have_their_sizes, legal_histories_go_on,
};
use sync_serials::syncs_stand_on;

/// A new front stands, a front that stands may answer a call of its threads, and one that has answered it stands.
pub(crate) fn histories_come_to()
    ensures begins { (core : CoreParts) (group : ℕ) (threads : List ℕ) → ((s : Link) → IsNew s group → Holds (face core) no_hands s) →
        IsNewFront (record { core = core; state = opening_group threads; serials = []; syncs = no_syncs group; threads = threads; history = []; stopped = false; closed = false }) group threads }
    ensures may { (f : FrontModel) (s : Link) (thread : ℕ) (asked : Call) → FrontStands f s → Contains f.threads thread → HasItsData asked →
        swept f.state ≡ f.state → MayAnswer (face f.core) s f.state f.serials f.syncs thread asked }
    ensures answered { (f : FrontModel) (s t : Link) (core : CoreParts) (after : GroupState) (serials : Entries ℕ) (syncs : SyncTables) (thread line : ℕ) (asked : Call) (answer : Reply) →
        FrontStands f s → HasItsData asked → swept f.state ≡ f.state → IsAnswered (face f.core) (face core) s t f.state after f.serials serials f.syncs syncs thread asked answer →
        HaveIndexes after.contexts serials (face core).group →
        FrontStands (record f { core = core; state = after; serials = serials; syncs = syncs; history = f.history ++ entry_of thread line asked answer ∷ [] }) t }
    ensures owns { (f : Face) (s : Link) → Holds f no_hands s → Owns f.objects s }
    ensures closed { (f : Face) (s : Link) → HasClosed f s → Owns f.objects s }
{
    legal_histories_go_on();
    group_is_a_projection();
    buffers_have_their_sizes();
    images_have_their_sizes();
    numbers_not_given_are_free();
    steps_may();
    syncs_stand_on();
}
