// The objects of a table, and how they change.
ghost use Rattle.std.specs.Prelude.{◌≡◌, slice_set, Some};
ghost use Rattle.std.specs.Option.{option_map_or};
ghost use Rattle.slab.specs.Slab.{ContainsKey};
ghost use Rattle.gl_objects.specs.Objects.{is_unreferenced, if_referenced, existing, changed, without_name};

use crate::ids::ObjectId;
use slab::Slab;

/// An object that exists.
#[derive(Clone, Copy, Debug, PartialEq, Eq)]
pub struct Object {
    /// How many objects of the kind were made before it.
    pub number: u64,
    /// The name that it has.
    pub name: Option<u32>,
    /// How many bindings and attachments hold it.
    pub holds: u128,
}

/// Whether nothing refers to an object.
fn is_unreferenced(object: Object) -> bool
    ensures { result ≡ is_unreferenced object }
{
    object.name.is_none() && object.holds == 0
}

/// The object of an id, if it exists.
pub fn existing(objects: &Slab<Object>, id: ObjectId) -> Option<Object>
    ensures { result ≡ existing objects.now.slots id }
{
    match objects.get(id.key()) {
        Some(object) if object.number == id.number() => Some(*object),
        _ => None,
    }
}

/// Puts a changed object in its place, or takes it out where nothing refers to it.
pub fn put_back(objects: &mut Slab<Object>, key: usize, object: Object)
    requires { ContainsKey objects.old key }
    ensures { objects.new.slots ≡ slice_set objects.old.slots key (if_referenced object) }
{
    if is_unreferenced(object) {
        objects.remove(key);
    } else if let Some(place) = objects.get_mut(key) {
        *place = object;
    }
}

/// Takes its name from an object, if there is one. The object ends where it is not held.
pub fn take_name(objects: &mut Slab<Object>, object: Option<ObjectId>)
    ensures { objects.new.slots ≡ option_map_or (λ id. changed objects.old.slots id without_name) object objects.old.slots }
{
    let Some(id) = object else {
        return;
    };
    if let Some(object) = existing(objects, id) {
        let nameless = Object {
            name: None,
            ..object
        };
        put_back(objects, id.key(), nameless);
    }
}
