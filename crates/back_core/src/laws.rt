// What is known of a link from what happened to the back.
ghost use Rattle.std.specs.Prelude.{◌≡◌, ◌≢◌, ◌/◌, ◌≤◌, ℕ, List, [], ◌∷◌, ◌++◌};
ghost use Rattle.vk_types.specs.declared.handles.HandleId.{HandleId};
ghost use Rattle.vk_types.specs.declared.handles.Kind.{Kind};
ghost use Rattle.vk_types.specs.declared.batches.Batch.{Batch};
ghost use Rattle.vk_types.specs.declared.batches.QueueSerial.{QueueSerial};
ghost use Rattle.submit_queue.specs.Histories.{last_number};
ghost use Rattle.back_core.specs.declared.back_event.BackEvent.{BackEvent};
ghost use Rattle.back_core.specs.declared.back_event.BackEvent.TheVariants.{Created, Wrote, Enqueued, Retired, Fetched, Gave, Abandoned};
ghost use Rattle.back_core.specs.Own as own;
ghost use Rattle.back_core.specs.Link.{IsNew, created, wrote, enqueued, fetched, gave, abandoned};
ghost use Rattle.back_core.specs.Answers.{Learns, Completes};
ghost use Rattle.back_core.specs.History.{link_of, completed, IsOfOthers};

use submit_queue::completed_numbers;

/// What a group sees after one more event: its own events are the calls of its link, a retirement tells it more, and no
/// other event tells it anything.
pub fn what_a_group_sees()
    ensures new { (g : ℕ) → IsNew (link_of [] g) g }
    ensures create { (h : List BackEvent) (g : ℕ) (id : HandleId) (kind : Kind) → link_of (h ++ Created g id kind ∷ []) g ≡ created (link_of h g) id.0 kind }
    ensures write { (h : List BackEvent) (g : ℕ) (id : HandleId) (at : ℕ) (bytes : List ℕ) → link_of (h ++ Wrote g id at bytes ∷ []) g ≡ wrote (link_of h g) id.0 at bytes }
    ensures enqueue { (h : List BackEvent) (g : ℕ) (batch : Batch) → batch.index / 8 ≡ g → link_of (h ++ Enqueued batch ∷ []) g ≡ enqueued (link_of h g) batch }
    ensures fetch { (h : List BackEvent) (g : ℕ) (id : HandleId) (at : ℕ) (bytes : List ℕ) → link_of (h ++ Fetched g id at bytes ∷ []) g ≡ fetched (link_of h g) id.0 at bytes }
    ensures give { (h : List BackEvent) (g : ℕ) (id : HandleId) (uses : List QueueSerial) → link_of (h ++ Gave g id uses ∷ []) g ≡ gave (link_of h g) id.0 uses }
    ensures abandon { (h : List BackEvent) (g : ℕ) (id : HandleId) → link_of (h ++ Abandoned g id ∷ []) g ≡ abandoned (link_of h g) id.0 }
    ensures retire { (h : List BackEvent) (g : ℕ) (serial : QueueSerial) → Learns (link_of h g) (link_of (h ++ Retired serial ∷ []) g) }
    ensures others { (h : List BackEvent) (g : ℕ) (e : BackEvent) → IsOfOthers e g → link_of (h ++ e ∷ []) g ≡ link_of h g }
    ensures group { (h : List BackEvent) (g : ℕ) → (link_of h g).group ≡ g }
    ensures asked { (h : List BackEvent) (g index : ℕ) → Completes (link_of h g) (link_of h g) index (completed h index) }
{
    completed_numbers();
}

/// No last use is above the last number of its index, while the numbers of an index rise.
pub fn uses_are_low()
    ensures starts { (index id : ℕ) → own.last_use [] index id ≤ last_number (own.batches_of []) index }
    ensures host { (mine : List own.Own) (x : own.Own) → own.batch_by x ≡ [] → (index id : ℕ) → own.last_use mine index id ≤ last_number (own.batches_of mine) index →
        own.last_use (mine ++ x ∷ []) index id ≤ last_number (own.batches_of (mine ++ x ∷ [])) index }
    ensures batch { (mine : List own.Own) (batch : Batch) → batch.number ≡ own.next_number mine batch.index → (index id : ℕ) → own.last_use mine index id ≤ last_number (own.batches_of mine) index →
        own.last_use (mine ++ own.Enqueued batch ∷ []) index id ≤ last_number (own.batches_of (mine ++ own.Enqueued batch ∷ [])) index }
{}
