ghost use Rattle.std.specs.Prelude.{◌≡◌, ◌<◌, ◌^◌};
ghost use Rattle.gl_model.specs.Storage.{image_bytes};

use crate::objects::ImageInfo;
use crate::state::GroupState;
use formats::texel_size;

/// The bytes of all stores and images of a share group may not pass this number.
pub const MOST_STORAGE: u128 = 67_108_864;

/// The bytes of an image, and 0 where there is no storage.
pub fn bytes_of(image: Option<ImageInfo>) -> u128
    ensures bytes { result ≡ image_bytes image }
    ensures bound { result < 2 ^ 80 }
{
    match image {
        Some(i) => i.width as u128 * i.height as u128 * texel_size(i.format) as u128,
        None => 0,
    }
}

impl GroupState {
    ghost use Rattle.gl_model.specs.Storage.{live_storage, passes_limit};

    /// The bytes of all stores and images.
    fn live_storage(&self) -> u128
        ensures { result ≡ live_storage self.now }
    {
        self.buffers.total() + self.textures.total() + self.renderbuffers.total()
    }

    /// Whether the stores and images would pass the limit, where some that are held are given up for more. This costs the same however
    /// many there are.
    pub fn passes_limit(&self, held: u128, more: u128) -> bool
        ensures { result ≡ passes_limit self.now held more }
    {
        let rest = self.live_storage().saturating_sub(held);
        MOST_STORAGE < rest || MOST_STORAGE - rest < more
    }
}
