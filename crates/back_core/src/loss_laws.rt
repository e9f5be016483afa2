// A back is stopped by a lost device only where the device's count of faults rose.
ghost use Rattle.std.specs.Prelude.{◌≡◌, ◌≤◌, ℕ, false, List, [], ◌∷◌, ◌++◌};
ghost use Rattle.faults.specs.Faults.{Rose};
ghost use Rattle.vk_types.specs.declared.stops.Stop.{Stop};
ghost use Rattle.vk_types.specs.declared.stops.Stop.TheVariants.{Lost};
ghost use Rattle.back_core.specs.declared.back_event.BackEvent.{BackEvent};
ghost use Rattle.back_core.specs.declared.ending.Ending.TheVariants.{Running, Stopped};
ghost use Rattle.back_core.specs.Back.{ending_of, ending_after, is_stopped, closed_by, stopped_by};
ghost use Rattle.back_core.specs.Steps.{HasGoneOn, HasStopped, cleaned};
ghost use Rattle.back_core.specs.Losses.{LossHasCause};

/// From any moment on at which no loss of the device stopped the back, each call keeps that such a stop comes only where the
/// device's count of faults rose since. The clauses take what the calls say: the history after a call, that the count did
/// not fall, and that `Lost` was answered only where it rose.
pub fn losses_have_causes()
    ensures opening { (count : ℕ) → LossHasCause count count [] }
    ensures starts { (count : ℕ) (h : List BackEvent) → (ending_of h ≡ Stopped Lost → ⊥) → LossHasCause count count h }
    ensures later { (first before now : ℕ) (h : List BackEvent) → LossHasCause first before h → before ≤ now → LossHasCause first now h }
    // an event that is no stop
    ensures goes_on { (first before now : ℕ) (h : List BackEvent) (e : BackEvent) → LossHasCause first before h → before ≤ now →
        is_stopped (ending_after Running e) ≡ false → LossHasCause first now (h ++ e ∷ []) }
    ensures batches { (first before now : ℕ) (h k : List BackEvent) → LossHasCause first before h → before ≤ now → HasGoneOn h k → LossHasCause first now k }
    ensures cleans { (first before now : ℕ) (h : List BackEvent) (read : List ℕ) (count : ℕ) → LossHasCause first before h → before ≤ now →
        LossHasCause first now (cleaned h read count) }
    ensures closes { (first before now : ℕ) (h : List BackEvent) → LossHasCause first before h → before ≤ now → LossHasCause first now (closed_by h) }
    ensures stops { (first before now : ℕ) (h : List BackEvent) (stop : Stop) → LossHasCause first before h → before ≤ now →
        (stop ≡ Lost → Rose before now) → LossHasCause first now (stopped_by h stop) }
    ensures waits { (first before now : ℕ) (h k : List BackEvent) (stop : Stop) → LossHasCause first before h → before ≤ now →
        (stop ≡ Lost → Rose before now) → HasStopped h k stop → LossHasCause first now k }
{}
