// How an object is accessed, and the layouts of images.
ghost use Rattle.std.specs.Prelude.{⊤, ◌≡◌, [], ◌∷◌, codes};
ghost use Rattle.vk_types.specs.Accesses.{in_common, has_all, joined};

use bitflags::{Flag, Flags, bitflag_items};

/// A set of kinds of access (Vulkan 1.1, Access Types).
#[derive(Clone, Copy, Debug, PartialEq, Eq)]
pub struct Access(u8);

bitflag_items! {
    impl Access: u8 {
        const TRANSFER_READ = 1;
        const TRANSFER_WRITE = 2;
        const COLOR_READ = 4;
        const COLOR_WRITE = 8;
        const HOST_READ = 16;
    }
}

impl Flags for Access {
    type Bits = u8;

    ghost exact = { ⊤ };

    ghost table = { (codes "TRANSFER_READ", 1) ∷ (codes "TRANSFER_WRITE", 2) ∷ (codes "COLOR_READ", 4)
        ∷ (codes "COLOR_WRITE", 8) ∷ (codes "HOST_READ", 16) ∷ [] };

    ghost set_of = { λ a. a.0 };

    fn flags<'a>() -> &'a [Flag<Access>] {
        Access::FLAGS
    }

    fn bits(&self) -> u8 {
        self.0
    }

    fn from_bits_retain(bits: u8) -> Access {
        Access(bits)
    }
}

impl Access {
    /// No kind.
    pub const NONE: Access = Access(0);

    /// Reads and writes of a color attachment.
    pub const COLOR: Access = Access(12);

    /// All five kinds.
    pub const ALL: Access = Access(31);

    /// The kinds of both.
    pub fn joined(self, other: Access) -> Access
        ensures { result ≡ joined self other }
    {
        self.union(other)
    }

    /// Whether the two have a kind in common.
    pub fn meets(self, other: Access) -> bool
        ensures { result ≡ in_common self other }
    {
        self.intersects(other)
    }

    /// Whether this has all kinds of the other.
    pub fn has(self, other: Access) -> bool
        ensures { result ≡ has_all self other }
    {
        self.contains(other)
    }
}

/// The layout of an image (Vulkan 1.1, Image Layouts). A new image is in `Undefined`.
#[derive(Clone, Copy, Debug, PartialEq, Eq)]
pub enum Layout {
    Undefined,
    TransferSrc,
    TransferDst,
    ColorAttachment,
}
