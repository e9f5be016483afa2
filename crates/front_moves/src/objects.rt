// The objects of a share group that have a store.
ghost use Rattle.std.specs.Prelude.{◌≡◌, ℕ, ◌<◌, ◌==◌, ◌||◌, if◌then◌else◌, [], length, Some, None, OnOk, OnErr, IfErr, IfSome, IfNone, IfOk, IsSome};
ghost use Rattle.std.specs.Option.{option_copied, option_map};
ghost use Rattle.tables.specs.Table.{entry, with_entry, without};
ghost use Rattle.barriers.specs.Trackers.{due_by};
ghost use Rattle.object_helper.specs.Objects.{access_of, heard};
ghost use Rattle.front_moves.specs.Objects.{key_of, used, fenced_in, ChangesOne, TakesOne};
ghost use Rattle.front_moves.specs.Recording.{IsDueBefore, copy_access};

use front_model::Object;
use object_helper::ObjectHelper;
use std::alloc::{AllocError, AllocFailed, Global};
use std::collections::BTreeMap;
use std::marker::Model;
use vk_types::{Access, Barrier, QueueSerial};

/// The number under which the store of an object is kept.
fn key(object: Object) -> u64
    ensures { result ≡ key_of object }
{
    match object {
        Object::Buffer(number) => 3 * u64::from(number),
        Object::Texture(number) => 3 * u64::from(number) + 1,
        Object::Renderbuffer(number) => 3 * u64::from(number) + 2,
    }
}

/// The objects that have a store, each under its key. Contracts see the list of them, in rising order of the keys. It has to be
/// empty when it ends: its handles are spent by nobody else.
pub(crate) struct Objects {
    map: BTreeMap<u64, ObjectHelper>,
}

impl Model for Objects {
    ghost use Rattle.std.specs.Prelude.{List, ℕ};
    ghost use Rattle.object_helper.specs.Objects.{ObjectStore};

    ghost Value = { List (ℕ × ObjectStore) };

    ghost view = { λ t. t.map.entries };
}

impl Objects {
    pub(crate) fn new(alloc: Global) -> Objects
        ensures { result ≡ [] }
    {
        Objects {
            map: BTreeMap::new(alloc),
        }
    }

    /// The store of an object.
    pub(crate) fn get(&self, object: Object) -> Option<&ObjectHelper>
        ensures { option_copied result ≡ entry (key_of object) self.now }
    {
        self.map.get(&key(object))
    }

    /// Takes in an access of a buffer's store in a batch, and gives the barrier that is due before it. For want of memory nothing changes.
    pub(crate) fn access(
        &mut self,
        object: Object,
        access: Access,
        serial: QueueSerial,
    ) -> Result<Option<Barrier>, AllocError>
        ensures due { IfOk result (λ due. IfSome (entry (key_of object) self.old) (λ x. due ≡ due_by x.tracker (access_of x.handle access))) }
        ensures ok { OnOk result (ChangesOne (key_of object) (used access serial) self.old self.new) }
        ensures err { OnErr result ((c : ℕ) → entry c self.new ≡ entry c self.old) }
    {
        match self.map.get_mut(&key(object)) {
            Some(store) => {
                store.note(serial)?;
                Ok(store.plan(access, None))
            }
            None => Ok(None),
        }
    }

    /// Takes in that a batch copies from a buffer to a buffer, and gives the barriers that are due before that.
    pub(crate) fn access_both(
        &mut self,
        src: Object,
        dst: Object,
        serial: QueueSerial,
    ) -> Result<(Option<Barrier>, Option<Barrier>), AllocError>
        ensures due { IfOk result (λ due. IsDueBefore (key_of src) (key_of dst) self.old due.0 due.1) }
        ensures ok { OnOk result ((c : ℕ) → entry c self.new
            ≡ (if (c == key_of src) || (c == key_of dst) then option_map (used (copy_access (key_of src) (key_of dst) c) serial) (entry c self.old) else entry c self.old)) }
        ensures stores { (c : ℕ) → option_map (λ x. x.handle) (entry c self.new) ≡ option_map (λ x. x.handle) (entry c self.old) }
    {
        let QueueSerial { index, number } = serial;
        let from = key(src);
        let to = key(dst);
        if from == to {
            let both = Access::TRANSFER_READ.joined(Access::TRANSFER_WRITE);
            let one = self.access(src, both, QueueSerial { index, number })?;
            return Ok((one, None));
        }
        let one = self.access(src, Access::TRANSFER_READ, QueueSerial { index, number })?;
        let other = self.access(dst, Access::TRANSFER_WRITE, QueueSerial { index, number })?;
        Ok((one, other))
    }

    /// Takes in a barrier of an object's store in a batch. For want of memory nothing changes.
    pub(crate) fn fence(
        &mut self,
        object: Object,
        barrier: &Barrier,
        serial: QueueSerial,
    ) -> Result<(), AllocError>
        ensures ok { OnOk result (ChangesOne (key_of object) (fenced_in serial barrier.now) self.old self.new) }
        ensures err { OnErr result ((c : ℕ) → entry c self.new ≡ entry c self.old) }
    {
        match self.map.get_mut(&key(object)) {
            Some(store) => {
                store.note(serial)?;
                store.fence(barrier);
                Ok(())
            }
            None => Ok(()),
        }
    }

    /// Takes in that the host reads an object.
    pub(crate) fn hear(&mut self, object: Object)
        ensures { ChangesOne (key_of object) heard self.old self.new }
    {
        if let Some(store) = self.map.get_mut(&key(object)) {
            store.hear();
        }
    }

    /// Puts an object in, which has no store so far, or hands it back for want of memory.
    pub(crate) fn insert(&mut self, object: Object, store: ObjectHelper) -> Result<(), ObjectHelper>
        requires { entry (key_of object) self.old ≡ None }
        ensures ok { OnOk result (self.new ≡ with_entry (key_of object) store self.old) }
        ensures err { OnErr result (self.new ≡ self.old) }
        ensures handed_back { IfErr result (λ back. back ≡ store) }
    {
        match self.map.insert(key(object), store) {
            Ok(None) => Ok(()),
            Ok(Some(other)) => Err(other),
            Err(AllocFailed { value: (_, store) }) => Err(store),
        }
    }

    /// Takes an object out.
    pub(crate) fn take(&mut self, object: Object) -> Option<ObjectHelper>
        ensures taken { result ≡ entry (key_of object) self.old }
        ensures left { self.new ≡ without (key_of object) self.old }
        ensures others { (c : ℕ) → entry c self.new ≡ (if c == key_of object then None else entry c self.old) }
    {
        self.map.remove(&key(object))
    }

    /// Takes the first object out, with its store.
    pub(crate) fn take_first(&mut self) -> Option<(u64, ObjectHelper)>
        ensures some { IfSome result (λ p. TakesOne p.0 p.1 self.old self.new) }
        ensures none { IfNone result (self.old ≡ []) }
        ensures unchanged { IfNone result (self.new ≡ self.old) }
    {
        self.map.pop_first()
    }

    /// Ends a list without objects.
    pub(crate) fn destroy_empty(self)
        requires { self ≡ [] }
    {
        let Objects { map } = self;
        map.destroy_empty();
    }
}
