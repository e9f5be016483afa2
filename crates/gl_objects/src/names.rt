// The map from names to ids.
ghost use Rattle.std.specs.Prelude.{◌≡◌, Some, None, OnOk, OnErr, IfOk};
ghost use Rattle.std.specs.Option.{option_and_then};
ghost use Rattle.tables.specs.Table.{entry, with_entry, without, IsOrdered};
ghost use Rattle.gl_objects.specs.Names.{Sets};

use crate::ids::ObjectId;
use std::alloc::AllocError;
use tables::Table;

/// The names in use, each with its object if it has one.
pub type NameMap = Table<Option<ObjectId>>;

/// The object of a name.
pub fn object_of(names: &NameMap, name: u32) -> Option<ObjectId>
    ensures { result ≡ option_and_then (λ object. object) (entry name names.now) }
{
    match names.get(name) {
        Some(object) => *object,
        None => None,
    }
}

/// Gives a name an object.
pub fn give_object(names: &mut NameMap, name: u32, id: ObjectId) -> Result<(), AllocError>
    ensures entries { OnOk result (names.new ≡ with_entry name (Some id) names.old) }
    ensures sets { OnOk result (Sets names.old names.new name (Some (Some id))) }
    ensures err { OnErr result (names.new ≡ names.old) }
{
    names.insert(name, Some(id))
}

/// Takes a name out of use, and tells the object that it had.
pub fn remove_name(names: &mut NameMap, name: u32) -> Option<ObjectId>
    ensures object { result ≡ option_and_then (λ object. object) (entry name names.old) }
    ensures entries { names.new ≡ without name names.old }
    ensures sets { Sets names.old names.new name None }
    ensures ordered { IsOrdered names.old }
{
    let _ = names.iter();
    let object = object_of(names, name);
    names.remove(name);
    object
}
