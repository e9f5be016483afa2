// Objects of a device and what names them.
ghost use Rattle.std.specs.Prelude.{◌≡◌};

use std::marker::Model;

/// The number of an object. No two objects of a device have one number.
#[derive(Clone, Copy, Debug, PartialEq, Eq, PartialOrd, Ord)]
pub struct HandleId(pub u64);

/// An object of a device. It is spent by the device's `destroy` or `abandon`, and can be neither dropped nor cloned.
#[derive(Debug)]
pub struct Handle {
    id: HandleId,
}

impl Model for Handle {
    ghost use Rattle.vk_types.specs.declared.handles.HandleId.{HandleId};

    ghost Value = { HandleId };

    ghost view = { λ h. h.id };
}

impl Handle {
    /// The handle of a new object. For devices alone.
    pub fn issue(id: HandleId) -> Handle
        ensures { result ≡ id }
    {
        Handle { id }
    }

    /// The object's number.
    pub fn id(&self) -> HandleId
        ensures { result ≡ self.now }
    {
        self.id
    }

    /// Gives the handle up. For devices alone.
    pub fn spend(self) -> HandleId
        ensures { result ≡ self }
    {
        let Handle { id } = self;
        id
    }
}

/// What an object is. A buffer's size is in bytes, an image's width and height are in texels. The format is the place
/// of an image's format in the list of formats, from 0 to 11.
#[derive(Clone, Copy, Debug, PartialEq, Eq)]
pub enum Kind {
    Buffer { size: u64 },
    Image { format: u8, width: u32, height: u32 },
}
