// What nodes on images, and the barriers before them, leave in what was recorded.
ghost use Rattle.std.specs.Prelude.{◌≡◌, ◌≢◌, ℕ, Bool, Option, List, [], ◌∷◌, ◌++◌, slice_get, Some, true};
ghost use Rattle.std.specs.List.{AllByRecursion};
ghost use Rattle.cells.specs.Contents.{UNDEFINED};
ghost use Rattle.vk_types.specs.declared.accesses.Layout.TheVariants.{Undefined};
ghost use Rattle.vk_types.specs.declared.regions.Barrier.{Barrier};
ghost use Rattle.vk_types.specs.declared.regions.Touch.{Touch};
ghost use Rattle.vk_types.specs.declared.ops.Node.{Node};
ghost use Rattle.vk_model.specs.Cells.{discards};
ghost use Rattle.vk_model.specs.Log.{Command};
ghost use Rattle.vk_model.specs.Meaning.{apply};
ghost use Rattle.barriers.specs.Licence.{Use, first_layout, layout_now};
ghost use Rattle.barriers.specs.Recording.{barrier_node, node_for, due_before, with_due};
ghost use Rattle.back_core.specs.Link.{Link, kinds_of};
ghost use Rattle.front_model.specs.declared.object.Object.{Object};
ghost use Rattle.object_helper.specs.Objects.{is_image};
ghost use Rattle.front_model.specs.Face.{Waiting, Slot, Stored, Face, put_object, recorded, view};
ghost use Rattle.front_model.specs.Stands.{Hands, Holds, is_image_of, uses_of};
ghost use Rattle.front_model.specs.Steps.{with_nodes, with_object, taken_from, MayRecord, IsBarrier};

use barriers::due_barriers_fit;

/// A node behind the barriers that are due before it does what it does alone. A barrier from the layout Undefined discards contents, but an
/// image is in that layout only until the first barrier before a node on it: so nothing wrote it, and none of its cells is defined.
pub fn due_nodes_show()
    ensures node { (f : Face) (hands : Hands) (s : Link) (index : ℕ) (n : Node) → Holds f hands s →
        MayRecord f hands s index (with_due (is_image_of s) (uses_of f s) n) →
        recorded (with_nodes f index (with_due (is_image_of s) (uses_of f s) n)) s ≡ apply (kinds_of s) (Command 0 n) (recorded f s) }
    // so does it behind any barriers
    ensures behind { (f : Face) (hands : Hands) (s : Link) (index : ℕ) (fences : List Node) (n : Node) → Holds f hands s →
        AllByRecursion IsBarrier fences → MayRecord f hands s index (fences ++ n ∷ []) →
        recorded (with_nodes f index (fences ++ n ∷ [])) s ≡ apply (kinds_of s) (Command 0 n) (recorded f s) }
    // the barriers that are due before touches are barriers
    ensures due { (is_image : ℕ → Bool) (uses : ℕ → List Use) (ts : List Touch) → AllByRecursion IsBarrier (due_before is_image uses ts) }
    ensures one { (due : Option Barrier) → AllByRecursion IsBarrier (node_for due) }
    // a node that changes one object alone, on which nothing waits, or a handle in hand alone
    ensures changes { (f : Face) (hands : Hands) (s : Link) (index : ℕ) (fences : List Node) (n : Node) (o : Object) (b : Stored) →
        Holds f hands s → AllByRecursion IsBarrier fences → MayRecord f hands s index (fences ++ n ∷ []) → f.objects o ≡ Some b →
        b.waiting ≡ [] → ((id p : ℕ) → id ≢ b.handle → apply (kinds_of s) (Command 0 n) (recorded f s) id p ≡ recorded f s id p) →
        view (with_nodes f index (fences ++ n ∷ [])) s
        ≡ put_object (view f s) o (apply (kinds_of s) (Command 0 n) (recorded f s) b.handle) }
    ensures changes_hand { (f : Face) (hands : Hands) (s : Link) (index : ℕ) (fences : List Node) (n : Node) (id : ℕ) (slot : Slot) →
        Holds f hands s → AllByRecursion IsBarrier fences → MayRecord f hands s index (fences ++ n ∷ []) → hands id ≡ Some slot →
        ((j p : ℕ) → j ≢ id → apply (kinds_of s) (Command 0 n) (recorded f s) j p ≡ recorded f s j p) →
        view (with_nodes f index (fences ++ n ∷ [])) s ≡ view f s }
    // so the first node that waits on an object may be taken and recorded: nothing else is shown then
    ensures drains { (f : Face) (hands also : Hands) (s : Link) (index : ℕ) (fences : List Node) (o : Object) (b : Stored) (w : Waiting) →
        Holds f hands s → f.objects o ≡ Some b → slice_get b.waiting 0 ≡ Some w → Holds (with_object f o (Some (taken_from b 0))) also s →
        AllByRecursion IsBarrier fences → MayRecord (with_object f o (Some (taken_from b 0))) also s index (fences ++ w.node ∷ []) →
        view (with_nodes (with_object f o (Some (taken_from b 0))) index (fences ++ w.node ∷ [])) s ≡ view f s }
    // and barriers alone show what was shown
    ensures transition { (f : Face) (hands : Hands) (s : Link) (index : ℕ) (fences : List Node) → Holds f hands s →
        AllByRecursion IsBarrier fences → MayRecord f hands s index fences → view (with_nodes f index fences) s ≡ view f s }
    // also where one discards an image: nothing is defined in it then, nor was before
    ensures discarded { (f : Face) (hands : Hands) (s : Link) (index : ℕ) (fences : List Node) (place : ℕ) (barrier : Barrier)
        (o : Object) (b : Stored) → Holds f hands s → AllByRecursion IsBarrier fences → MayRecord f hands s index fences →
        f.objects o ≡ Some b → b.waiting ≡ [] → slice_get fences place ≡ Some (barrier_node barrier) → barrier.id.0 ≡ b.handle →
        discards barrier.layouts ≡ true → (p : ℕ) → view (with_nodes f index fences) s o p ≡ UNDEFINED }
    // an image that is in the layout Undefined, by its tracker or by its uses
    ensures unwritten { (f : Face) (hands : Hands) (s : Link) (o : Object) (b : Stored) → Holds f hands s → f.objects o ≡ Some b →
        b.waiting ≡ [] → is_image b.slot.kind ≡ true → b.slot.tracker.layout ≡ Some Undefined → (p : ℕ) → view f s o p ≡ UNDEFINED }
    ensures unlaid { (f : Face) (hands : Hands) (s : Link) (id : ℕ) → Holds f hands s → is_image_of s id ≡ true →
        layout_now (first_layout true) (uses_of f s id) ≡ Some Undefined → recorded f s id ≡ (λ p. UNDEFINED) }
    // an object on which nothing waits shows what its store has
    ensures shows { (f : Face) (s : Link) (o : Object) (b : Stored) → f.objects o ≡ Some b → b.waiting ≡ [] →
        view f s o ≡ recorded f s b.handle }
{
    due_barriers_fit();
}
