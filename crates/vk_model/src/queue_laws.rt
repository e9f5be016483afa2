// Two queues, and the logs of share groups.
ghost use Rattle.std.specs.Prelude.{◌≡◌, ℕ, ◌+◌, true, List, ◌++◌, slice_get, Some, false};
ghost use Rattle.vk_types.specs.declared.handles.Kind.{Kind};
ghost use Rattle.vk_types.specs.declared.ops.Node.{Node};
ghost use Rattle.vk_model.specs.Log.{Item, Command, touches_object, IsSound, IsOneQueue};
ghost use Rattle.vk_model.specs.Queues.{IsHandedOver, group_list, HasGroups};
ghost use Rattle.vk_model.specs.Batches.{Accepted, device_log, BatchesHandOver};
ghost use Rattle.vk_model.specs.Meaning.{eval, touches_id};

/// Queues that hand over what they share are in order where the list of each group is, each taken as of one queue.
pub fn queues_are_in_order()
    ensures one_queue { (log : List Item) → IsOneQueue log → IsHandedOver log }
    ensures batches { (accepted : List Accepted) → BatchesHandOver accepted → IsHandedOver (device_log accepted) }
    ensures sound { (log : List Item) (group_of : ℕ → ℕ) → IsHandedOver log →
        ((g : ℕ) → IsSound (group_list group_of g log)) → IsSound log }
{}

/// An object has what the log of its group makes of it, and items at the end that do not touch it change nothing.
/// Only the kinds of touched objects count.
pub fn objects_depend_on_their_own_items()
    ensures group { (kinds : ℕ → Kind) (group_of : ℕ → ℕ) (log : List Item) (id : ℕ) → HasGroups group_of log →
        eval kinds log id ≡ eval kinds (group_list group_of (group_of id) log) id }
    ensures untouched { (kinds : ℕ → Kind) (log more : List Item) (id : ℕ) →
        ((k : ℕ) (x : Item) → slice_get more k ≡ Some x → touches_id x id ≡ false) →
        eval kinds (log ++ more) id ≡ eval kinds log id }
    ensures kinds { (kinds kinds' : ℕ → Kind) (log : List Item) →
        ((k q : ℕ) (n : Node) (id : ℕ) → slice_get log k ≡ Some (Command q n) → touches_object n id ≡ true → kinds id ≡ kinds' id) →
        eval kinds log ≡ eval kinds' log }
{}
