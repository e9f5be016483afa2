// What it comes to that a front ends, on plain values.
ghost use Rattle.std.specs.Prelude.{◌≡◌, ℕ, true, false, [], Some, None};
ghost use Rattle.tables.specs.Table.{Entries};
ghost use Rattle.object_helper.specs.Objects.{ObjectStore};
ghost use Rattle.back_core.specs.Link.{Link, abandoned};
ghost use Rattle.front_model.specs.declared.object.Object.{Object};
ghost use Rattle.front_model.specs.Face.{Face, Stored};
ghost use Rattle.front_model.specs.Stands.{Holds, Owns, no_hands};
ghost use Rattle.front_moves.specs.Objects.{objects_of, TakesOne};
ghost use Rattle.front_moves.specs.Ending.{HasClosed, HasLetGo};

/// A front in which nothing is pending and no object has a store has closed.
pub(crate) fn close_comes_to()
    ensures { (f : Face) (s : Link) → Holds f no_hands s → ((index : ℕ) → f.pending index ≡ []) → ((o : Object) → f.objects o ≡ None) → HasClosed f s }
{}

/// The stores of a group's objects are let go one after another.
pub(crate) fn abandon_comes_to()
    ensures begins { (stores : Entries ObjectStore) (s : Link) → Owns (objects_of stores) s → HasLetGo stores stores s s }
    ensures held { (stores old new : Entries ObjectStore) (s t : Link) (key : ℕ) (store : ObjectStore) → HasLetGo stores old s t → TakesOne key store old new → t.held store.handle.0 ≡ true }
    ensures goes_on { (stores old new : Entries ObjectStore) (s t : Link) (key : ℕ) (store : ObjectStore) → Owns (objects_of stores) s → HasLetGo stores old s t → TakesOne key store old new →
        HasLetGo stores new s (abandoned t store.handle.0) }
    ensures ends { (stores : Entries ObjectStore) (s t : Link) (o : Object) (x : Stored) → HasLetGo stores [] s t → objects_of stores o ≡ Some x → t.held x.handle ≡ false }
{}
