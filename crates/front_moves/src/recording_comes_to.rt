// What recording nodes on buffers comes to, on plain values.
ghost use Rattle.std.specs.Prelude.{◌≡◌, ◌≢◌, ℕ, ◌+◌, ◌<◌, ◌≤◌, ◌==◌, ◌||◌, ◌⊎◌, not, false, List, Option, Some, None, IfSome, if◌then◌else◌};
ghost use Rattle.std.specs.Option.{option_map};
ghost use Rattle.vk_types.specs.declared.handles.HandleId.{HandleId};
ghost use Rattle.vk_types.specs.declared.handles.Kind.{Kind};
ghost use Rattle.vk_types.specs.declared.handles.Kind.TheVariants as kind;
ghost use Rattle.vk_types.specs.declared.ops.Op.TheVariants as op;
ghost use Rattle.vk_types.specs.declared.batches.QueueSerial.{QueueSerial};
ghost use Rattle.vk_types.specs.declared.regions.Barrier.{Barrier};
ghost use Rattle.vk_types.specs.Accesses.{host_read, transfer_write};
ghost use Rattle.vk_types.specs.Touches.{the_end};
ghost use Rattle.resource_use.specs.Uses.{number_of};
ghost use Rattle.tables.specs.Table.{entry};
ghost use Rattle.back_core.specs.Link.{Link, gave, abandoned};
ghost use Rattle.back_core.specs.Needs.{MayGive};
ghost use Rattle.front_model.specs.declared.object.Object.TheVariants.{Buffer};
ghost use Rattle.front_model.specs.Face.{put_object, outline_at, view, recorded};
ghost use Rattle.front_model.specs.Stands.{Holds, Owns, Moved, no_hands};
ghost use Rattle.front_model.specs.Wanted.{with_copy};
ghost use Rattle.front_moves.specs.Objects.{key_of};
ghost use Rattle.front_moves.specs.Core.{CoreParts, face, in_hand, IsQuietBut, IsParted, IsOpen};
ghost use Rattle.barriers.specs.Trackers.{due_by};
ghost use Rattle.object_helper.specs.Objects.{access_of};
ghost use Rattle.front_moves.specs.Recording.{IsNextSerial, HasBuffer, IsAccessed, IsOpened, IsDueBefore, behind_both, copy_access};

use barriers::due_barriers_fit;
use front_model::{
    due_nodes_may_be_recorded, front_steps_show, link_steps_show, quiet_objects_stay, steps_hold,
    steps_may,
};

/// A copy between two buffers that was recorded shows in the second one.
pub(crate) fn copy_comes_to()
    ensures moved { (c d : CoreParts) (s : Link) (place src src_at dst dst_at size src_len dst_len : ℕ) (serial : QueueSerial) (from to : HandleId) (one other : Option Barrier) →
        Holds (face c) no_hands s → IsNextSerial c place serial → HasBuffer (not (src == dst)) c serial.index src from src_len → HasBuffer false c serial.index dst to dst_len →
        src_at + size ≤ src_len → dst_at + size ≤ dst_len → 0 < size → (src ≡ dst → (src_at + size ≤ dst_at) ⊎ (dst_at + size ≤ src_at)) →
        IsDueBefore (key_of (Buffer src)) (key_of (Buffer dst)) c.stores one other →
        IsAccessed c d place (behind_both one other (record { op = op.CopyBuffer from src_at to dst_at size })) serial
        (λ k. (k == key_of (Buffer src)) || (k == key_of (Buffer dst))) (copy_access (key_of (Buffer src)) (key_of (Buffer dst))) →
        Moved (face d) s (put_object (view (face c) s) (Buffer dst) (with_copy (view (face c) s (Buffer dst)) dst_at size (view (face c) s (Buffer src)) src_at))
        (outline_at (face c)) (λ o. IsQuietBut (face c) s (Buffer dst) o × (o ≢ Buffer src)) }
{
    steps_hold();
    steps_may();
    front_steps_show();
    quiet_objects_stay();
    due_nodes_may_be_recorded();
    due_barriers_fit();
}

/// A copy of a whole staging buffer that was recorded shows in the buffer, once the staging buffer was given away.
pub(crate) fn upload_comes_to()
    ensures may { (c d : CoreParts) (s : Link) (place b at len size : ℕ) (serial : QueueSerial) (from to : HandleId) (due : Option Barrier) (uses : List QueueSerial) →
        Holds (face c) (in_hand from.0 (kind.Buffer len)) s → IsNextSerial c place serial → HasBuffer false c serial.index b to size → at + len ≤ size → 0 < len → len ≤ the_end →
        IfSome (entry (key_of (Buffer b)) c.stores) (λ x. due ≡ due_by x.tracker (access_of x.handle transfer_write)) →
        IsAccessed c d place (behind_both None due (record { op = op.CopyBuffer from 0 to at len })) serial (λ k. k == key_of (Buffer b)) (λ k. transfer_write) →
        ((i : ℕ) → number_of uses i ≡ (if i == serial.index then serial.number else 0)) → MayGive s from.0 uses }
    ensures moved { (c d : CoreParts) (s : Link) (place b at len size : ℕ) (serial : QueueSerial) (from to : HandleId) (due : Option Barrier) (uses : List QueueSerial) →
        Holds (face c) (in_hand from.0 (kind.Buffer len)) s → IsNextSerial c place serial → HasBuffer false c serial.index b to size → at + len ≤ size → 0 < len → len ≤ the_end →
        IfSome (entry (key_of (Buffer b)) c.stores) (λ x. due ≡ due_by x.tracker (access_of x.handle transfer_write)) →
        IsAccessed c d place (behind_both None due (record { op = op.CopyBuffer from 0 to at len })) serial (λ k. k == key_of (Buffer b)) (λ k. transfer_write) →
        ((i : ℕ) → number_of uses i ≡ (if i == serial.index then serial.number else 0)) →
        Moved (face d) (gave s from.0 uses) (put_object (view (face c) s) (Buffer b) (with_copy (view (face c) s (Buffer b)) at len (recorded (face c) s from.0) 0))
        (outline_at (face c)) (IsQuietBut (face c) s (Buffer b)) }
{
    steps_hold();
    steps_may();
    front_steps_show();
    link_steps_show();
    quiet_objects_stay();
    due_nodes_may_be_recorded();
    due_barriers_fit();
}

/// The barrier that is due before the host reads a buffer shows nothing once it was recorded, and behind it none is due; nor is one where
/// none was due.
pub(crate) fn opening_comes_to()
    ensures moved { (c d : CoreParts) (s : Link) (place b len : ℕ) (serial : QueueSerial) (id : HandleId) (barrier : Barrier) →
        Holds (face c) no_hands s → IsNextSerial c place serial → HasBuffer false c serial.index b id len →
        IfSome (entry (key_of (Buffer b)) c.stores) (λ x. Some barrier ≡ due_by x.tracker (access_of x.handle host_read)) →
        IsOpened c d place barrier serial (key_of (Buffer b)) →
        Moved (face d) s (view (face c) s) (outline_at (face c)) (IsQuietBut (face c) s (Buffer b)) }
    ensures behind { (c d : CoreParts) (s : Link) (place b len : ℕ) (serial : QueueSerial) (id : HandleId) (barrier : Barrier) →
        Holds (face c) no_hands s → IsNextSerial c place serial → HasBuffer false c serial.index b id len →
        IfSome (entry (key_of (Buffer b)) c.stores) (λ x. Some barrier ≡ due_by x.tracker (access_of x.handle host_read)) →
        IsOpened c d place barrier serial (key_of (Buffer b)) → IsParted false (face d) serial.index (Buffer b) × IsOpen (face d) (Buffer b) }
    ensures already { (c : CoreParts) (s : Link) (index b len : ℕ) (id : HandleId) → Holds (face c) no_hands s → HasBuffer false c index b id len →
        IfSome (entry (key_of (Buffer b)) c.stores) (λ x. None ≡ due_by x.tracker (access_of x.handle host_read)) →
        IsParted false (face c) index (Buffer b) × IsOpen (face c) (Buffer b) × Moved (face c) s (view (face c) s) (outline_at (face c)) (IsQuietBut (face c) s (Buffer b)) }
{
    steps_hold();
    steps_may();
    front_steps_show();
    quiet_objects_stay();
    due_nodes_may_be_recorded();
    due_barriers_fit();
}

/// What is left where nodes could not be recorded.
pub(crate) fn stopped_recording_comes_to()
    ensures owns { (c d : CoreParts) (s : Link) → Holds (face c) no_hands s →
        ((k : ℕ) → option_map (λ x. x.handle) (entry k d.stores) ≡ option_map (λ x. x.handle) (entry k c.stores)) → Owns (face d).objects s }
    // the handle in hand was let go
    ensures lets_go { (c d : CoreParts) (s : Link) (id : ℕ) (k : Kind) → Holds (face c) (in_hand id k) s →
        ((k : ℕ) → option_map (λ x. x.handle) (entry k d.stores) ≡ option_map (λ x. x.handle) (entry k c.stores)) → Owns (face d).objects (abandoned s id) }
{
    steps_may();
}
