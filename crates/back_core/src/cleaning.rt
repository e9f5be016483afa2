// Destroying what is covered.
ghost use Rattle.std.specs.Prelude.{◌≡◌, ◌≢◌, ◌==◌, ◌&&◌, is_none, ◌<◌, ◌≤◌, ◌^◌, length, Some, [], OnSome};
ghost use Rattle.faults.specs.Faults.{Rose};
ghost use Rattle.vk_types.specs.declared.stops.Stop.TheVariants.{Lost, Memory};
ghost use Rattle.vk_device.specs.Running.{IsInOrder};
ghost use Rattle.vk_device.specs.Effects.{ChangesNothing};
ghost use Rattle.back_core.specs.Cleaning.{CanDestroy, Destroys, covered_of};

use garbage::{Garbage, GarbageList};
use vk_device::{Device, devices_stay_in_order};
use vk_types::Stop;

/// How many objects a cleanup destroyed, and by what it was stopped.
#[derive(Clone, Copy, Debug)]
pub(crate) struct Destroyed {
    pub(crate) count: u64,
    pub(crate) stop: Option<Stop>,
}

impl Destroyed {
    /// Whether nothing was destroyed, and no stop came.
    pub(crate) fn is_nothing(&self) -> bool
        ensures { result ≡ ((self.now.count == 0) && is_none self.now.stop) }
    {
        self.count == 0 && self.stop.is_none()
    }
}

/// Destroys the covered objects in order, until none is left or the device is lost. This takes no memory.
pub(crate) fn destroy_covered<D: Device>(
    device: &mut D,
    garbage: &mut GarbageList,
    read: &[u64; 64],
) -> Destroyed
    requires few { length garbage.old.items < 2 ^ 64 }
    requires can { CanDestroy (D.journal device.old) (covered_of read.now garbage.old.items) }
    requires in_order { IsInOrder (D.journal device.old) (D.bytes_of device.old) }
    ensures destroys { Destroys (D.journal device.old) (D.journal device.new) garbage.old.items garbage.new.items read.now result.count result.stop }
    ensures in_order { IsInOrder (D.journal device.new) (D.bytes_of device.new) }
    ensures room { garbage.old.room ≤ garbage.new.room }
    ensures no_memory { result.stop ≢ Some Memory }
    ensures later { D.faults device.old ≤ D.faults device.new }
    ensures lost { result.stop ≡ Some Lost → Rose (D.faults device.old) (D.faults device.new) }
{
    devices_stay_in_order::<D>();
    let mut count = 0;
    let mut from = 0;
    while let Some((place, item)) = garbage.take_covered(from, read) {
        let Garbage { handle, uses: _ } = item;
        match device.destroy(handle) {
            Ok(()) => count += 1,
            Err(stop) => {
                return Destroyed {
                    count,
                    stop: Some(stop),
                };
            }
        }
        from = place;
    }
    Destroyed { count, stop: None }
}

/// Lets all objects of the garbage go.
pub(crate) fn abandon_all<D: Device>(device: &mut D, mut garbage: GarbageList)
    requires { IsInOrder (D.journal device.old) (D.bytes_of device.old) }
    ensures same { D.journal device.new ≡ D.journal device.old }
    ensures in_order { IsInOrder (D.journal device.new) (D.bytes_of device.new) }
    ensures faults { D.faults device.new ≡ D.faults device.old }
{
    devices_stay_in_order::<D>();
    while let Some(item) = garbage.take_first() {
        let Garbage { handle, uses: _ } = item;
        device.abandon(handle);
    }
    garbage.destroy_empty();
}
