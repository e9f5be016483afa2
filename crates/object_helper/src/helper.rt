// The store of an object.
ghost use Rattle.std.specs.Prelude.{◌≡◌, ℕ, max, cond, ◌==◌, OnOk, OnErr};
ghost use Rattle.resource_use.specs.Uses.{number_of, noted};
ghost use Rattle.barriers.specs.Trackers.{due_by};
ghost use Rattle.object_helper.specs.Objects.{new_store, is_image, buffer_size, touch_of, accessed_in, fenced, heard};

use barriers::Tracker;
use garbage::Garbage;
use resource_use::ResourceUse;
use std::alloc::{AllocError, Global};
use std::marker::Model;
use std::mem;
use vk_types::{Access, Barrier, Handle, HandleId, Kind, Layout, QueueSerial, SerialIndex, Touch};

/// The store of an object: its handle, its kind, the last uses of it, and the tracker that knows which barriers are due.
/// It can be neither dropped nor cloned: its handle has to be given away.
#[derive(Debug)]
pub struct ObjectHelper {
    handle: Handle,
    kind: Kind,
    uses: ResourceUse,
    tracker: Tracker,
}

impl Model for ObjectHelper {
    ghost use Rattle.object_helper.specs.Objects.{ObjectStore};

    ghost Value = { ObjectStore };

    ghost view = { λ b. record { handle = b.handle; kind = b.kind; uses = b.uses; tracker = b.tracker } };
}

/// An access of a whole object.
fn whole(id: HandleId, access: Access, layout: Option<Layout>) -> Touch
    ensures { result ≡ touch_of id access layout }
{
    Touch {
        id,
        start: 0,
        end: u64::MAX,
        access,
        layout,
    }
}

/// Whether objects of a kind are images.
fn is_of_image(kind: Kind) -> bool
    ensures { result ≡ is_image kind }
{
    match kind {
        Kind::Buffer { size: _ } => false,
        Kind::Image {
            format: _,
            width: _,
            height: _,
        } => true,
    }
}

impl ObjectHelper {
    /// A store that nothing has used. This takes no memory.
    pub fn new(alloc: Global, handle: Handle, kind: Kind) -> ObjectHelper
        ensures { result ≡ new_store handle kind }
    {
        let tracker = Tracker::new(handle.id(), is_of_image(kind));
        ObjectHelper {
            handle,
            kind,
            uses: ResourceUse::new(alloc),
            tracker,
        }
    }

    /// The number of the store's object.
    pub fn id(&self) -> HandleId
        ensures { result ≡ self.now.handle }
    {
        self.handle.id()
    }

    /// What the store is.
    pub fn kind(&self) -> Kind
        ensures { result ≡ self.now.kind }
    {
        self.kind
    }

    /// The size of a buffer's store in bytes; that of an image is 0.
    pub fn size(&self) -> u64
        ensures { result ≡ buffer_size self.now.kind }
    {
        match self.kind {
            Kind::Buffer { size } => size,
            Kind::Image {
                format: _,
                width: _,
                height: _,
            } => 0,
        }
    }

    /// The last uses of the store.
    pub fn uses(&self) -> &ResourceUse
        ensures { result.now ≡ self.now.uses }
    {
        &self.uses
    }

    /// The number of the last batch of an index that uses the store, or 0.
    pub fn last_use(&self, index: SerialIndex) -> u64
        ensures { result ≡ number_of self.now.uses index }
    {
        self.uses.number_of(index)
    }

    /// The barrier that is due before nodes access the store so, an image in a layout. It and the access are taken in.
    pub fn plan(&mut self, access: Access, layout: Option<Layout>) -> Option<Barrier>
        ensures due { result ≡ due_by self.old.tracker (touch_of self.old.handle access layout) }
        ensures taken { self.new ≡ accessed_in layout access self.old }
    {
        let touch = whole(self.handle.id(), access, layout);
        let due = self.tracker.before(&touch);
        self.tracker.after(&touch);
        due
    }

    /// The barrier that is due before nodes, or the host, access the store so.
    pub fn due(&self, access: Access, layout: Option<Layout>) -> Option<Barrier>
        ensures { result ≡ due_by self.now.tracker (touch_of self.now.handle access layout) }
    {
        self.tracker
            .before(&whole(self.handle.id(), access, layout))
    }

    /// Takes in a barrier of the store.
    pub fn fence(&mut self, barrier: &Barrier)
        ensures { self.new ≡ fenced barrier.now self.old }
    {
        self.tracker.fence(barrier);
    }

    /// Takes in that the host reads the store.
    pub fn hear(&mut self)
        ensures { self.new ≡ heard self.old }
    {
        self.tracker.access(Access::HOST_READ);
    }

    /// Notes a use of the store: the index's number becomes the greater of the two. For want of memory nothing changes.
    pub fn note(&mut self, serial: QueueSerial) -> Result<(), AllocError>
        ensures ok { OnOk result (self.new ≡ record self.old { uses = noted self.old.uses serial }) }
        ensures numbers { OnOk result ((i : ℕ) → number_of self.new.uses i ≡ cond (serial.index == i) (max (number_of self.old.uses i) serial.number) (number_of self.old.uses i)) }
        ensures err { OnErr result (self.new ≡ self.old) }
    {
        self.uses.note(serial)?;
        Ok(())
    }

    /// Gives the object another store, which nothing has used, and gives the old one with its uses.
    pub fn replace(&mut self, alloc: Global, fresh: Handle, kind: Kind) -> Garbage
        ensures store { self.new ≡ new_store fresh kind }
        ensures old { result ≡ record { handle = self.old.handle; uses = self.old.uses } }
    {
        self.kind = kind;
        self.tracker = Tracker::new(fresh.id(), is_of_image(kind));
        let uses = mem::replace(&mut self.uses, ResourceUse::new(alloc));
        let handle = mem::replace(&mut self.handle, fresh);
        Garbage { handle, uses }
    }

    /// Ends the object, and gives its store with its uses.
    pub fn into_garbage(self) -> Garbage
        ensures { result ≡ record { handle = self.handle; uses = self.uses } }
    {
        let ObjectHelper {
            handle,
            kind: _,
            uses,
            tracker: _,
        } = self;
        Garbage { handle, uses }
    }
}
