// What holds of a front between its calls, and of the bytes that are due over them.
ghost use Rattle.std.specs.Prelude.{◌≡◌, ℕ, ◌+◌, List, [], ◌∷◌, ◌++◌};
ghost use Rattle.gl_calls.specs.declared.reply.Entry.{Entry};
ghost use Rattle.gl_model.specs.Reached.{reached};
ghost use Rattle.back_core.specs.Answers.{Learns};
ghost use Rattle.back_core.specs.Link.{Link};
ghost use Rattle.front_model.specs.Stands.{BarriersAreLicensed};
ghost use Rattle.front_core.specs.Economy.{due_of, due_over};
ghost use Rattle.front_core.specs.Front.{FrontModel, FrontStands};

use front_model::{link_steps_show, quiet_objects_stay, steps_hold, steps_may};
use gl_model::group_is_a_projection;
use sync_serials::syncs_stand_on;

/// A front goes on standing where its group only learned how far the back is.
pub fn fronts_go_on_standing()
    ensures { (f : FrontModel) (s t : Link) → FrontStands f s → Learns s t → FrontStands f t }
{
    steps_hold();
    link_steps_show();
    quiet_objects_stay();
    syncs_stand_on();
}

/// Each barrier that the group of a front had the back do was licensed where it stands.
pub fn fronts_license_barriers()
    ensures { (f : FrontModel) (s : Link) → FrontStands f s → BarriersAreLicensed s }
{
    steps_may();
}

/// The bytes that are due over a history grow by those that are due for its next call.
pub fn dues_grow()
    ensures begins { (threads : List ℕ) → due_over threads [] ≡ 0 }
    ensures grows { (threads : List ℕ) (history : List Entry) (e : Entry) →
        due_over threads (history ++ e ∷ []) ≡ due_over threads history + due_of (reached threads history).group e.thread e.call }
{
    group_is_a_projection();
}
