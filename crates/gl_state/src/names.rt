// Names of one kind of object.
ghost use Rattle.std.specs.Prelude.{◌≡◌, ◌+◌, OnOk, OnErr, false, if◌then◌else◌};
ghost use Rattle.std.specs.Option.{option_map_or};
ghost use Rattle.tables.specs.Table.{has, with_entry};
ghost use Rattle.gl_model.specs.GroupEffect.{object_of, after_bind, with_made};

use gl_model::{Counted, HasBytes, Names};
use std::alloc::AllocError;
use tables::Table;

/// The object of a name, by its number.
pub fn object_of(names: &Names, name: u32) -> Option<u32>
    ensures { result ≡ object_of names.now name }
{
    match names.objects.get(name) {
        Some(object) => *object,
        None => None,
    }
}

/// Makes an object for a name other than 0 that has none (OpenGL ES 3.0.6, Object Model). For want of memory, also where
/// 4294967295 objects of the kind were made, nothing changes.
pub fn make_object<V: HasBytes + Drop>(
    names: &mut Names,
    objects: &mut Counted<V>,
    name: u32,
    fresh: V,
) -> Result<(), AllocError>
    requires { has names.old.made objects.old ≡ false }
    ensures names { OnOk result (names.new ≡ after_bind names.old name) }
    ensures objects { OnOk result (objects.new ≡ with_made names.old name fresh objects.old) }
    ensures names_err { OnErr result (names.new ≡ names.old) }
    ensures objects_err { OnErr result (objects.new ≡ objects.old) }
{
    if name == 0 || names.has_object(name) {
        return Ok(());
    }
    let Some(next) = names.made.checked_add(1) else {
        return Err(AllocError);
    };
    objects.insert(names.made, fresh)?;
    match names.objects.insert(name, Some(names.made)) {
        Ok(()) => {
            names.made = next;
            Ok(())
        }
        Err(_) => {
            objects.remove(names.made);
            Err(AllocError)
        }
    }
}

/// Lists an object that loses its name, if it exists. For want of memory nothing changes.
pub fn list_nameless<V: HasBytes + Drop>(
    objects: &Counted<V>,
    nameless: &mut Table<()>,
    object: Option<u32>,
) -> Result<(), AllocError>
    ensures ok { OnOk result (nameless.new ≡ option_map_or (λ b. if has b objects.now then with_entry b tt nameless.old else nameless.old) object nameless.old) }
    ensures err { OnErr result (nameless.new ≡ nameless.old) }
{
    let Some(object) = object else {
        return Ok(());
    };
    if !objects.contains_key(object) {
        return Ok(());
    }
    nameless.insert(object, ())
}
