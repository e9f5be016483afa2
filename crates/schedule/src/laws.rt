// What the moves of a schedule leave of a play.
ghost use Rattle.std.specs.Prelude.{◌≡◌, ℕ, ◌++◌, List, map};
ghost use Rattle.vk_device.specs.declared.logged.Logged.{Logged};
ghost use Rattle.world_core.specs.World.{WorldModel, play_of};
ghost use Rattle.schedule.specs.Moves.{Move, callers_of_group};
ghost use Rattle.schedule.specs.Made.{AreMade};

use vk_device::Device;

/// The calls of each group were made in the order of the moves, and no others.
pub fn calls_are_made<D: Device>()
    ensures threads { (journal : D → List Logged) (old new : WorldModel D) (moves : List Move) → AreMade journal old new moves →
        new.threads ≡ old.threads }
    ensures calls { (journal : D → List Logged) (old new : WorldModel D) (moves : List Move) → AreMade journal old new moves → (group : ℕ) →
        map (λ e. e.thread) ((play_of new).histories group)
        ≡ map (λ e. e.thread) ((play_of old).histories group) ++ callers_of_group old.threads group moves }
{}
