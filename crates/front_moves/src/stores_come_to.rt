// What making, filling, beginning and ending a store come to, on plain values.
ghost use Rattle.std.specs.Prelude.{◌≡◌, ℕ, ◌<◌, ◌≤◌, ◌==◌, if◌then◌else◌, true, List, Option, Some, None, [], length};
ghost use Rattle.vk_types.specs.declared.handles.HandleId.{HandleId};
ghost use Rattle.vk_types.specs.declared.handles.Kind.{Kind};
ghost use Rattle.vk_types.specs.declared.handles.Kind.TheVariants as kind;
ghost use Rattle.vk_types.specs.Touches.{the_end};
ghost use Rattle.tables.specs.Table.{Entries, entry, with_entry};
ghost use Rattle.object_helper.specs.Objects.{ObjectStore, new_store};
ghost use Rattle.back_core.specs.Link.{Link, created, wrote, gave, abandoned};
ghost use Rattle.back_core.specs.Needs.{IsFresh, HostMay, MayGive};
ghost use Rattle.front_model.specs.declared.object.Object.{Object};
ghost use Rattle.front_model.specs.Face.{Face, put_object, outline_at, view, recorded};
ghost use Rattle.front_model.specs.Stands.{Holds, Owns, Moved, no_hands};
ghost use Rattle.front_moves.specs.Objects.{key_of};
ghost use Rattle.front_moves.specs.Core.{CoreParts, face, in_hand, HasFresh, IsQuietBut, new_outline, new_cells};

use front_model::{
    fresh_handles_show, front_steps_show, link_steps_show, quiet_objects_stay, steps_hold,
    steps_may,
};

/// A buffer that was just made is in hand, and none of its cells is defined.
pub(crate) fn blank_comes_to()
    ensures made { (f : Face) (s : Link) (id size : ℕ) → Holds f no_hands s → IsFresh s id →
        HasFresh f s (created s id (kind.Buffer size)) id (kind.Buffer size) None }
    ensures owns { (f : Face) (s : Link) → Holds f no_hands s → Owns f.objects s }
{
    steps_hold();
    steps_may();
    link_steps_show();
    quiet_objects_stay();
    fresh_handles_show();
}

/// A buffer in hand may be written, and then has the bytes, or it may be let go.
pub(crate) fn filled_comes_to()
    ensures may { (f : Face) (s t : Link) (id size : ℕ) → HasFresh f s t id (kind.Buffer size) None → 0 < size → HostMay t id 0 size }
    ensures written { (f : Face) (s t : Link) (id : ℕ) (bytes : List ℕ) → HasFresh f s t id (kind.Buffer (length bytes)) None → length bytes ≤ the_end →
        HasFresh f s (wrote t id 0 bytes) id (kind.Buffer (length bytes)) (Some bytes) }
    ensures held { (f : Face) (s : Link) (id : ℕ) (k : Kind) → Holds f (in_hand id k) s → s.held id ≡ true }
    ensures let_go { (f : Face) (s : Link) (id : ℕ) (k : Kind) → Holds f (in_hand id k) s → Owns f.objects (abandoned s id) }
    ensures owns { (f : Face) (s : Link) → Holds f no_hands s → Owns f.objects s }
{
    steps_hold();
    steps_may();
    link_steps_show();
    quiet_objects_stay();
    fresh_handles_show();
}

/// An object that has no store gets the one in hand.
pub(crate) fn begin_comes_to()
    ensures begun { (c d : CoreParts) (s : Link) (o : Object) (k : Kind) (handle : HandleId) → Holds (face c) (in_hand handle.0 k) s → (face c).objects o ≡ None →
        d ≡ record c { stores = with_entry (key_of o) (new_store handle k) c.stores } →
        Moved (face d) s (put_object (view (face c) s) o (recorded (face c) s handle.0))
        (put_object (outline_at (face c)) o (Some (new_outline k))) (IsQuietBut (face c) s o) }
{
    steps_hold();
    front_steps_show();
    quiet_objects_stay();
}

/// An object's store, if it has one, is taken out of it and given away.
pub(crate) fn end_comes_to()
    ensures may { (c : CoreParts) (s : Link) (o : Object) (store : ObjectStore) → Holds (face c) no_hands s → entry (key_of o) c.stores ≡ Some store →
        MayGive s store.handle.0 store.uses }
    ensures given { (c d : CoreParts) (s : Link) (o : Object) (store : ObjectStore) → Holds (face c) no_hands s → entry (key_of o) c.stores ≡ Some store →
        d ≡ record c { stores = d.stores } → ((q : ℕ) → entry q d.stores ≡ (if q == key_of o then None else entry q c.stores)) →
        Moved (face d) (gave s store.handle.0 store.uses) (put_object (view (face c) s) o (new_cells None))
        (put_object (outline_at (face c)) o None) (IsQuietBut (face c) s o) }
    ensures nothing { (c d : CoreParts) (s : Link) (o : Object) → Holds (face c) no_hands s → entry (key_of o) c.stores ≡ None →
        d ≡ record c { stores = d.stores } → ((q : ℕ) → entry q d.stores ≡ (if q == key_of o then None else entry q c.stores)) →
        Moved (face d) s (put_object (view (face c) s) o (new_cells None))
        (put_object (outline_at (face c)) o None) (IsQuietBut (face c) s o) }
{
    steps_hold();
    steps_may();
    front_steps_show();
    link_steps_show();
    quiet_objects_stay();
}
