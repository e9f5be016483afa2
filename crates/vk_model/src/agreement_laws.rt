// Bytes that agree with contents.
ghost use Rattle.std.specs.Prelude.{◌≡◌, ℕ, ◌<◌, ◌+◌, true, List, [], ◌∷◌, ◌++◌, length, slice_get, slice_index, Some, false};
ghost use Rattle.cells.specs.Contents.{cells, Agrees, AgreesAt};
ghost use Rattle.vk_types.specs.declared.ops.Node.{Node};
ghost use Rattle.vk_model.specs.Cells.{op_cell};
ghost use Rattle.vk_model.specs.Log.{Command, touches_object};
ghost use Rattle.vk_model.specs.Meaning.{is_written};
ghost use Rattle.vk_types.specs.declared.handles.Kind.{Kind};
ghost use Rattle.vk_model.specs.Cells.{Contents};
ghost use Rattle.vk_model.specs.Log.{Item, IsPermitted, IsSound};
ghost use Rattle.vk_model.specs.Meaning.{nothing, apply, eval, executed, IsSettled, ContentsAgree};

/// Contents that agree before an item agree after it.
pub fn agreement_is_kept()
    ensures after { (kinds : ℕ → Kind) (x : Item) (c d : Contents) →
        ContentsAgree c d → ContentsAgree (apply kinds x c) (apply kinds x d) }
    ensures through { (b c d : Contents) → ContentsAgree b c → ContentsAgree c d → ContentsAgree b d }
{}

/// The bytes of a device agree with what its executed items make, whatever it does where nothing is defined.
/// So a read of an object all of whose items were executed agrees with the log.
pub fn device_bytes_agree()
    ensures starts { (bytes : Contents) → ContentsAgree bytes nothing }
    ensures runs { (kinds : ℕ → Kind) (log : List Item) (order : List ℕ) (k : ℕ) (x : Item) (old new : Contents) →
        slice_get log k ≡ Some x → ContentsAgree old (executed kinds log order) → ContentsAgree new (apply kinds x old) →
        ContentsAgree new (executed kinds log (order ++ k ∷ [])) }
    ensures reads { (kinds : ℕ → Kind) (log : List Item) (order : List ℕ) (id : ℕ) (bytes : Contents) →
        IsSound log → IsPermitted log order → IsSettled log order id → ContentsAgree bytes (executed kinds log order) →
        (i : ℕ) → eval kinds log id i < 256 → bytes id i ≡ eval kinds log id i }
{}

/// Only the kinds of the objects that an item touches count.
pub fn only_touched_kinds_count()
    ensures item { (kinds kinds' : ℕ → Kind) (x : Item) →
        ((q : ℕ) (n : Node) (id : ℕ) → x ≡ Command q n → touches_object n id ≡ true → kinds id ≡ kinds' id) →
        (c : Contents) → apply kinds x c ≡ apply kinds' x c }
    ensures log { (kinds kinds' : ℕ → Kind) (log : List Item) →
        ((k q : ℕ) (n : Node) (id : ℕ) → slice_get log k ≡ Some (Command q n) → touches_object n id ≡ true → kinds id ≡ kinds' id) →
        eval kinds log ≡ eval kinds' log }
{}

/// Bytes agree with a content as a list exactly where they agree with it at each place.
pub fn places_agree_as_lists()
    ensures as_list { (size : ℕ) (bytes : List ℕ) (f : ℕ → ℕ) → length bytes ≡ size →
        ((i : ℕ) → i < size → AgreesAt (slice_index bytes i) (f i)) → Agrees bytes (cells size f) }
    ensures by_place { (size : ℕ) (bytes : List ℕ) (f : ℕ → ℕ) → Agrees bytes (cells size f) →
        (i : ℕ) → i < size → AgreesAt (slice_index bytes i) (f i) }
{}

/// Contents agree with those after a node where they have, at each place that is written, what the operation makes of
/// the old ones, and elsewhere what was there.
pub fn node_is_executed()
    ensures { (kinds : ℕ → Kind) (q : ℕ) (n : Node) (old new : Contents) →
        ((id i : ℕ) → is_written (Command q n) id i ≡ true → AgreesAt (new id i) (op_cell kinds n.op old id i)) →
        ((id i : ℕ) → is_written (Command q n) id i ≡ false → new id i ≡ old id i) →
        ContentsAgree new (apply kinds (Command q n) old) }
{}
