ghost use Rattle.std.specs.Prelude.{◌≡◌, ◌<◌, ◌+◌, ◌-◌, ◌^◌, ◌&&◌, ◌==◌, ◌↔◌, IsTrue, IsSome, IfOk, IfSome, OnOk, OnErr, MatchOption, [], None, Some, is_none, slice_get};
ghost use Rattle.std.specs.Option.{option_map, option_map_or};
ghost use Rattle.gl_model.specs.GroupEffect.{object_of, after_bind, after_delete, lowest_unused, with_generated};
ghost use Rattle.gl_objects.specs.Ids.{number_of, key_of};
ghost use Rattle.gl_objects.specs.Objects.{existing, holds_of, name_of, changed, with_holds, without_name, named_object, object_at, object_names, Puts, IsLawful};

use crate::ids::ObjectId;
use crate::names::{give_object, object_of, remove_name};
use crate::object::{Object, existing, put_back, take_name};
use slab::Slab;
use std::alloc::{AllocError, Global};
use std::marker::Model;
use tables::Table;
use unused_names::UnusedNames;

/// The names of one kind of object, and the objects that exist.
#[derive(Drop)]
pub struct NameTable {
    names: Table<Option<ObjectId>>,
    unused: UnusedNames,
    made: u64,
    objects: Slab<Object>,
}

impl Model for NameTable {
    ghost use Rattle.gl_objects.specs.Objects.{NamedObjects, numbered, IsKept};

    ghost Value = { NamedObjects };

    ghost view = { λ t. record {
      names = record { objects = numbered t.names; made = t.made };
      objects = t.objects.slots;
    } };

    ghost invariant = { λ t. IsKept t.names t.made t.objects.slots t.unused };
}

impl NameTable {
    /// A table with no names. This takes no memory.
    pub fn new(alloc: Global) -> NameTable
        ensures { result ≡ record { names = record { objects = []; made = 0 }; objects = [] } }
    {
        NameTable {
            names: Table::new(alloc),
            unused: UnusedNames::new(alloc),
            made: 0,
            objects: Slab::new(alloc),
        }
    }

    /// The object of a name, and None where the name has none.
    pub fn lookup(&self, name: u32) -> Option<ObjectId>
        ensures object { option_map number_of result ≡ object_of self.now.names name }
        ensures id { IfSome result (λ id. name_of self.now.objects id ≡ Some name) }
        ensures law { IsLawful self.now }
    {
        object_of(&self.names, name)
    }

    /// Adds a hold of an object that exists.
    pub fn hold(&mut self, id: ObjectId)
        requires exists { IsSome (existing self.old.objects id) }
        requires room { holds_of self.old.objects id + 1 < 2 ^ 128 }
        ensures { self.new ≡ record self.old { objects = changed self.old.objects id (with_holds (holds_of self.old.objects id + 1)) } }
    {
        if let Some(object) = existing(&self.objects, id) {
            let held = Object {
                holds: object.holds + 1,
                ..object
            };
            put_back(&mut self.objects, id.key(), held);
        }
    }

    /// Takes a hold of an object back. The object ends where it has no name and this was the last hold.
    pub fn release(&mut self, id: ObjectId)
        requires { 0 < holds_of self.old.objects id }
        ensures { self.new ≡ record self.old { objects = changed self.old.objects id (with_holds (holds_of self.old.objects id - 1)) } }
    {
        if let Some(object) = existing(&self.objects, id) {
            let held = Object {
                holds: object.holds - 1,
                ..object
            };
            put_back(&mut self.objects, id.key(), held);
        }
    }

    /// Whether an object has no name and no hold, and so has ended.
    pub fn unreferenced(&self, id: ObjectId) -> bool
        ensures answer { result ≡ (is_none (name_of self.now.objects id) && (holds_of self.now.objects id == 0)) }
        ensures exists { IsTrue result ↔ (existing self.now.objects id ≡ None) }
    {
        existing(&self.objects, id).is_none()
    }

    /// Puts the n lowest unused names from 1 on into use, and tells them in rising order (OpenGL ES 3.0.6, Buffer
    /// Objects, GenBuffers). This is want of memory where there are fewer unused names. Then nothing changes.
    pub fn gen_(&mut self, alloc: Global, n: u32) -> Result<Vec<u32>, AllocError>
        ensures names { IfOk result (λ names. names.items ≡ lowest_unused self.old.names.objects n) }
        ensures ok { OnOk result (self.new ≡ record self.old { names = record self.old.names { objects = with_generated (lowest_unused self.old.names.objects n) self.old.names.objects } }) }
        ensures err { OnErr result (self.new ≡ self.old) }
    {
        let names = self.unused.generate(alloc, &mut self.names, n)?;
        Ok(names)
    }

    /// Makes an object for a name other than 0 that has none. Its id was never used before. For want of memory nothing
    /// changes.
    pub fn bind_new(&mut self, name: u32) -> Result<ObjectId, AllocError>
        requires not_zero { 0 < name }
        requires no_object { object_of self.old.names name ≡ None }
        requires room { self.old.names.made + 1 < 2 ^ 64 }
        ensures names { OnOk result (self.new.names ≡ after_bind self.old.names name) }
        ensures number { IfOk result (λ id. number_of id ≡ self.old.names.made) }
        ensures vacant { IfOk result (λ id. object_at self.old.objects (key_of id) ≡ None) }
        ensures object { IfOk result (λ id. Puts self.old.objects self.new.objects (key_of id) (Some (named_object id name 0))) }
        ensures err { OnErr result (self.new ≡ self.old) }
    {
        self.objects.reserve(1)?;
        let id = ObjectId::new(self.made, self.objects.vacant_key());
        give_object(&mut self.names, name, id)?;
        self.unused.note_used(name);
        self.objects.insert_reserved(Object {
            number: self.made,
            name: Some(name),
            holds: 0,
        });
        self.made += 1;
        Ok(id)
    }

    /// Takes a name out of use, and tells the object that it had. The object ends where it is not held.
    pub fn delete(&mut self, name: u32) -> Option<ObjectId>
        ensures object { option_map number_of result ≡ object_of self.old.names name }
        ensures id { IfSome result (λ id. name_of self.old.objects id ≡ Some name) }
        ensures names { self.new.names ≡ after_delete self.old.names name }
        ensures objects { self.new.objects ≡ option_map_or (λ id. changed self.old.objects id without_name) result self.old.objects }
    {
        let object = remove_name(&mut self.names, name);
        self.unused.note_unused(name);
        take_name(&mut self.objects, object);
        object
    }

    /// The k-th name that has an object, from 0 in rising order, and None past the last one.
    pub fn name_at(&self, k: usize) -> Option<u32>
        ensures { result ≡ slice_get (object_names self.now.names) k }
    {
        let mut left = k;
        for (name, object) in self.names.iter() {
            if object.is_some() {
                if left == 0 {
                    return Some(*name);
                }
                left -= 1;
            }
        }
        None
    }
}
