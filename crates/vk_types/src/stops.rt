// Why a call gives up.
ghost use Rattle.std.specs.Prelude.{◌≡◌};
ghost use Rattle.vk_types.specs.declared.stops.Stop.TheVariants.{Memory};

use std::alloc::{AllocError, AllocFailed};

/// Why a call of a device gives up: the device is lost (VK_ERROR_DEVICE_LOST), or there is no memory left.
#[derive(Clone, Copy, Debug, PartialEq, Eq)]
pub enum Stop {
    Lost,
    Memory,
}

impl From<AllocError> for Stop {
    ghost from_gives = { λ _ stop. stop ≡ Memory };

    fn from(_: AllocError) -> Stop {
        Stop::Memory
    }
}

impl<T: Drop> From<AllocFailed<T>> for Stop {
    ghost from_gives = { λ _ stop. stop ≡ Memory };

    fn from(_: AllocFailed<T>) -> Stop {
        Stop::Memory
    }
}
