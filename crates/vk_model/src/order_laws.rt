// Which orders are permitted, and that each of them does what the log order does.
ghost use Rattle.std.specs.Prelude.{◌≡◌, ℕ, ◌<◌, ◌+◌, List, [], ◌∷◌, ◌++◌, length, take, slice_get, ◌↔◌, Some, Contains};
ghost use Rattle.vk_types.specs.declared.handles.Kind.{Kind};
ghost use Rattle.vk_types.specs.declared.ops.Node.{Node};
ghost use Rattle.vk_model.specs.Log.{Item, HostWrite, conflict as conflicts, HasEdge, IsReady, IsPermitted, IsSound};
ghost use Rattle.vk_model.specs.Meaning.{found, apply, eval, executed, IsSettled};

/// An order is permitted exactly where each item may run after those before it: it is in the log, it has not run, and
/// all that reach it have.
pub fn permitted_orders()
    ensures { (log : List Item) (order : List ℕ) →
        IsPermitted log order ↔ ((front : List ℕ) (k : ℕ) (back : List ℕ) → order ≡ front ++ k ∷ back → IsReady log front k) }
{}

/// A conflict goes both ways.
pub fn conflict_is_mutual()
    ensures { (a b : Node) → conflicts a b ≡ conflicts b a }
{}

/// Over a sound log, an item that may run next finds in what was executed so far what it finds in log order.
pub fn ready_item_finds_log_order()
    ensures { (kinds : ℕ → Kind) (log : List Item) (order : List ℕ) (k : ℕ) (x : Item) →
        IsSound log → IsPermitted log order → IsReady log order k → slice_get log k ≡ Some x →
        found x (executed kinds log order) ≡ found x (eval kinds (take k log)) }
{}

/// So each item of a permitted order finds what it finds in log order.
pub fn each_item_finds_log_order()
    ensures { (kinds : ℕ → Kind) (log : List Item) (front : List ℕ) (k : ℕ) (back : List ℕ) (x : Item) →
        IsSound log → IsPermitted log (front ++ k ∷ back) → slice_get log k ≡ Some x →
        found x (executed kinds log front) ≡ found x (eval kinds (take k log)) }
{}

/// An object has what the log evaluates to as soon as all items that touch it were executed.
pub fn settled_object_is_as_in_log_order()
    ensures { (kinds : ℕ → Kind) (log : List Item) (order : List ℕ) (id : ℕ) →
        IsSound log → IsPermitted log order → IsSettled log order id →
        executed kinds log order id ≡ eval kinds log id }
{}

/// All objects have it once all items were executed.
pub fn whole_order_is_log_order()
    ensures { (kinds : ℕ → Kind) (log : List Item) (order : List ℕ) →
        IsSound log → IsPermitted log order → ((k : ℕ) → k < length log → Contains order k) →
        executed kinds log order ≡ eval kinds log }
{}

/// A device may run a ready item, and its log may grow.
pub fn order_goes_on()
    // one more item
    ensures runs { (log : List Item) (order : List ℕ) (k : ℕ) →
        IsPermitted log order → IsReady log order k → IsPermitted log (order ++ k ∷ []) }
    ensures changes { (kinds : ℕ → Kind) (log : List Item) (order : List ℕ) (k : ℕ) (x : Item) →
        slice_get log k ≡ Some x →
        executed kinds log (order ++ k ∷ []) ≡ apply kinds x (executed kinds log order) }
    // a longer log
    ensures accepts { (log more : List Item) (order : List ℕ) →
        IsPermitted log order → IsPermitted (log ++ more) order }
    ensures keeps { (kinds : ℕ → Kind) (log more : List Item) (order : List ℕ) →
        IsPermitted log order → executed kinds (log ++ more) order ≡ executed kinds log order }
    // a write by the host
    ensures writes { (log : List Item) (order : List ℕ) (id at : ℕ) (bytes : List ℕ) →
        IsPermitted log order → IsSettled log order id →
        IsReady (log ++ HostWrite id at bytes ∷ []) order (length log) }
    // the edges to an item decide whether it may run
    ensures edges { (log : List Item) (order : List ℕ) (k : ℕ) →
        IsPermitted log order → k < length log → (Contains order k → ⊥) →
        ((j : ℕ) → HasEdge log j k → Contains order j) → IsReady log order k }
    // there is always an item to run
    ensures first { (log : List Item) (order : List ℕ) (k : ℕ) → k < length log →
        (Contains order k → ⊥) → ((j : ℕ) → j < k → Contains order j) → IsReady log order k }
{}
