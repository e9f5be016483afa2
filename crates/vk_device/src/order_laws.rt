// What every device keeps, whatever calls are made.
ghost use Rattle.std.specs.Prelude.{◌≡◌, ℕ, ◌+◌, ◌<◌, ◌≤◌, ◌^◌, List, [], All, length, Result, IsSome};
ghost use Rattle.cells.specs.Contents.{overwritten};
ghost use Rattle.vk_types.specs.declared.handles.HandleId.{HandleId};
ghost use Rattle.vk_types.specs.declared.handles.Kind.{Kind};
ghost use Rattle.vk_types.specs.declared.batches.Batch.{Batch};
ghost use Rattle.vk_types.specs.declared.stops.Stop.{Stop};
ghost use Rattle.vk_model.specs.Fitting.{NodeFits, size_of};
ghost use Rattle.vk_model.specs.Log.{IsSound};
ghost use Rattle.vk_model.specs.Meaning.{IsSettled, eval};
ghost use Rattle.vk_device.specs.declared.logged.Logged.{Logged};
ghost use Rattle.vk_device.specs.declared.logged.Logged.TheVariants.{Created, Wrote, Submitted, Fetched, Destroyed};
ghost use Rattle.vk_device.specs.declared.logged.Turned.{Turned};
ghost use Rattle.vk_device.specs.Journal.{kind_of, creates_of, ReachesTo};
ghost use Rattle.vk_device.specs.Order.{log_of, order_of, kinds_of, contents};
ghost use Rattle.vk_device.specs.Effects.{ChangesNothing, ChangesOnly, Adds, HasTurned};
ghost use Rattle.vk_device.specs.Running.{IsInOrder};

use crate::Device;

/// What each call promises keeps the journal clean, the executed order permitted, and the bytes of the live objects in
/// agreement with that order. So the bytes of a settled object agree with what a sound log evaluates to.
pub fn devices_stay_in_order<D: Device>()
    ensures starts { (bytes_of : ℕ → List ℕ) → IsInOrder [] bytes_of }
    ensures stays { (old new : D) →
        IsInOrder (D.journal old) (D.bytes_of old) → ChangesNothing D.journal D.bytes_of old new →
        IsInOrder (D.journal new) (D.bytes_of new) }
    ensures creates { (old new : D) (id : HandleId) (kind : Kind) →
        IsInOrder (D.journal old) (D.bytes_of old) → creates_of id.0 (D.journal old) ≡ 0 →
        length (D.bytes_of new id.0) ≡ size_of kind → ChangesOnly D.journal D.bytes_of old new id.0 (Created id kind) →
        IsInOrder (D.journal new) (D.bytes_of new) }
    ensures writes { (old new : D) (id : HandleId) (at : ℕ) (bytes : List ℕ) →
        IsInOrder (D.journal old) (D.bytes_of old) → ReachesTo (kind_of (D.journal old) id.0) (at + length bytes) →
        at + length bytes < 2 ^ 64 → IsSettled (log_of (D.journal old)) (order_of (D.journal old)) id.0 →
        ChangesOnly D.journal D.bytes_of old new id.0 (Wrote id at bytes) →
        D.bytes_of new id.0 ≡ overwritten (D.bytes_of old id.0) at bytes → IsInOrder (D.journal new) (D.bytes_of new) }
    ensures submits { (old new : D) (batch : Batch) →
        IsInOrder (D.journal old) (D.bytes_of old) → All (NodeFits (kind_of (D.journal old))) batch.nodes →
        Adds D.journal D.bytes_of old new (Submitted batch) → IsInOrder (D.journal new) (D.bytes_of new) }
    ensures turns { (old new : D) (turned : Result Turned Stop) →
        IsInOrder (D.journal old) (D.bytes_of old) → HasTurned D.journal D.bytes_of old new turned →
        IsInOrder (D.journal new) (D.bytes_of new) }
    ensures fetches { (old new : D) (id : HandleId) (at : ℕ) (bytes : List ℕ) →
        IsInOrder (D.journal old) (D.bytes_of old) → ReachesTo (kind_of (D.journal old) id.0) (at + length bytes) →
        ChangesOnly D.journal D.bytes_of old new id.0 (Fetched id at bytes) → D.bytes_of new id.0 ≡ D.bytes_of old id.0 →
        IsInOrder (D.journal new) (D.bytes_of new) }
    ensures destroys { (old new : D) (id : HandleId) →
        IsInOrder (D.journal old) (D.bytes_of old) → IsSome (kind_of (D.journal old) id.0) →
        ChangesOnly D.journal D.bytes_of old new id.0 (Destroyed id) → IsInOrder (D.journal new) (D.bytes_of new) }
    ensures reads { (journal : List Logged) (bytes_of : ℕ → List ℕ) (id : ℕ) →
        IsInOrder journal bytes_of → IsSound (log_of journal) → IsSettled (log_of journal) (order_of journal) id →
        IsSome (kind_of journal id) → (i : ℕ) → eval (kinds_of journal) (log_of journal) id i < 256 →
        contents bytes_of id i ≡ eval (kinds_of journal) (log_of journal) id i }
{}
