// Two objects, and what a node makes of them.
ghost use Rattle.std.specs.Prelude.{◌≡◌, ℕ, length, IsSome};
ghost use Rattle.vk_model.specs.Fitting.{IsKind, NodeFits, size_of};
ghost use Rattle.vk_objects.specs.Objects.{kind_of, bytes_of, HaveSizes};
ghost use Rattle.node_tests.specs.Pair.{two_kinds};

use std::alloc::{AllocError, Global};
use vk_objects::{Objects, execute};
use vk_types::{HandleId, Kind, Node, Op};

// Gives an object these bytes.
fn fill(objects: &mut Objects, id: HandleId, bytes: &[u8])
    requires live { IsSome (kind_of objects.old id.0) }
    requires sized { HaveSizes objects.old }
    requires size { length bytes.now ≡ length (bytes_of objects.old id.0) }
    ensures kinds { (i : ℕ) → kind_of objects.new i ≡ kind_of objects.old i }
    ensures sized { HaveSizes objects.new }
{
    let mut held = objects.take(id);
    held.overwrite(0, bytes);
    objects.put_back(id, held);
}

/// The bytes of object 2 after the operation on the objects 1 and 2.
pub(crate) fn after(
    alloc: Global,
    first: Kind,
    first_bytes: &[u8],
    second: Kind,
    second_bytes: &[u8],
    op: Op,
) -> Result<Vec<u8>, AllocError>
    requires first { IsKind first }
    requires second { IsKind second }
    requires first_size { length first_bytes.now ≡ size_of first }
    requires second_size { length second_bytes.now ≡ size_of second }
    requires fits { NodeFits (two_kinds first second) (record { op = op }) }
{
    let mut objects = Objects::new(alloc);
    objects.insert(HandleId(1), first)?;
    objects.insert(HandleId(2), second)?;
    fill(&mut objects, HandleId(1), first_bytes);
    fill(&mut objects, HandleId(2), second_bytes);
    execute(&Node { op }, &mut objects);
    match objects.bytes(HandleId(2)) {
        Some(bytes) => Vec::from_slice(alloc, bytes),
        None => Ok(Vec::new(alloc)),
    }
}
