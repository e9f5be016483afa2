// Neighbouring items without a conflict change places.
ghost use Rattle.std.specs.Prelude.{◌≡◌, ℕ, ◌+◌, List, ◌∷◌, ◌++◌, false};
ghost use Rattle.std.specs.List.{AllByRecursion};
ghost use Rattle.vk_types.specs.declared.handles.Kind.{Kind};
ghost use Rattle.vk_types.specs.declared.ops.Node.{Node};
ghost use Rattle.vk_model.specs.Log.{Item, Command, HostWrite, touches_object, conflict as conflicts, items_clash, NoneEmpty, IsSound, commands, NoConflict};
ghost use Rattle.vk_model.specs.Meaning.{eval};

/// Neighbours without a conflict may change places.
pub fn neighbours_commute()
    ensures { (kinds : ℕ → Kind) (front back : List Item) (x y : Item) → items_clash x y ≡ false →
        eval kinds (front ++ x ∷ y ∷ back) ≡ eval kinds (front ++ y ∷ x ∷ back) }
{}

/// Soundness is kept where neighbouring nodes without a conflict change places.
pub fn neighbours_stay_sound()
    ensures { (front back : List Item) (p q : ℕ) (a b : Node) →
        NoneEmpty a → NoneEmpty b → conflicts a b ≡ false →
        IsSound (front ++ Command p a ∷ Command q b ∷ back) →
        IsSound (front ++ Command q b ∷ Command p a ∷ back) }
{}

/// So do whole lists of nodes, of which none of the one conflicts with one of the other.
pub fn lists_change_places()
    ensures sound { (q : ℕ) (front back : List Item) (xs ys : List Node) →
        AllByRecursion NoneEmpty xs → AllByRecursion NoneEmpty ys → NoConflict xs ys →
        IsSound (front ++ (commands q xs ++ (commands q ys ++ back))) →
        IsSound (front ++ (commands q ys ++ (commands q xs ++ back))) }
    ensures contents { (q : ℕ) (kinds : ℕ → Kind) (front back : List Item) (xs ys : List Node) →
        AllByRecursion NoneEmpty xs → AllByRecursion NoneEmpty ys → NoConflict xs ys →
        eval kinds (front ++ (commands q xs ++ (commands q ys ++ back)))
        ≡ eval kinds (front ++ (commands q ys ++ (commands q xs ++ back))) }
{}

/// A write by the host may come before a node that does not touch its object.
pub fn writes_come_first()
    ensures sound { (front back : List Item) (q : ℕ) (n : Node) (id at : ℕ) (bytes : List ℕ) → touches_object n id ≡ false →
        IsSound (front ++ Command q n ∷ HostWrite id at bytes ∷ back) →
        IsSound (front ++ HostWrite id at bytes ∷ Command q n ∷ back) }
    ensures contents { (kinds : ℕ → Kind) (front back : List Item) (q : ℕ) (n : Node) (id at : ℕ) (bytes : List ℕ) →
        touches_object n id ≡ false →
        eval kinds (front ++ Command q n ∷ HostWrite id at bytes ∷ back)
        ≡ eval kinds (front ++ HostWrite id at bytes ∷ Command q n ∷ back) }
{}
