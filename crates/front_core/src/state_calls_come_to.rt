// What a call that writes no cells comes to, on plain values.
ghost use Rattle.std.specs.Prelude.{◌≡◌, ◌≢◌, ℕ, true, Some, None, List};
ghost use Rattle.gl_calls.specs.declared.call.Call.{Call};
ghost use Rattle.gl_calls.specs.declared.reply.Reply.{Reply};
ghost use Rattle.gl_model.specs.declared.state.GroupState.{GroupState};
ghost use Rattle.gl_model.specs.GroupEffect.{group_effect};
ghost use Rattle.gl_model.specs.Refusal.{refusal};
ghost use Rattle.gl_state.specs.Applied.{reply_of};
ghost use Rattle.back_core.specs.Link.{Link};
ghost use Rattle.front_model.specs.declared.object.Object.{Object};
ghost use Rattle.front_model.specs.Face.{Face};
ghost use Rattle.front_model.specs.Stands.{Holds, Owns, no_hands};
ghost use Rattle.front_moves.specs.Core.{CoreParts, face};
ghost use Rattle.front_moves.specs.Ending.{HasEnded};
ghost use Rattle.front_core.specs.Gone.{objects_gone};
ghost use Rattle.front_core.specs.Share.{MayCall, IsCarriedOut, is_of_state};

use front_model::{calls_keep_agreement, calls_keep_stores, steps_may};
use gl_model::{buffers_have_their_sizes, group_is_a_projection, images_have_their_sizes};
use gl_state::replies_are_answers;

/// Where the state has changed and the objects that stopped existing were ended, the call was carried out.
pub(crate) fn state_calls_come_to()
    ensures carried { (c : CoreParts) (g : Face) (s t : Link) (group : GroupState) (thread : ℕ) (asked : Call) (answer : Reply) (ended : List Object) →
        is_of_state asked ≡ true → MayCall (face c) s group thread asked → reply_of group thread asked ≡ Some answer →
        ended ≡ objects_gone group (group_effect group thread asked) → HasEnded (face c) g s t ended →
        IsCarriedOut (face c) g s t group (group_effect group thread asked) thread asked answer }
    ensures replies { (group : GroupState) (thread : ℕ) (asked : Call) → is_of_state asked ≡ true → refusal group thread asked ≡ None →
        reply_of group thread asked ≢ None }
    ensures owns { (f : Face) (s : Link) → Holds f no_hands s → Owns f.objects s }
{
    steps_may();
    calls_keep_agreement();
    calls_keep_stores();
    buffers_have_their_sizes();
    images_have_their_sizes();
    group_is_a_projection();
    replies_are_answers();
}
