// A share group's link to a back behind a turnstile.
ghost use Rattle.std.specs.Prelude.{◌≡◌, ◌<◌, Err};
ghost use Rattle.vk_types.specs.declared.stops.Stop.TheVariants.{Lost};
ghost use Rattle.vk_device.specs.Faults.{HasCause};
ghost use Rattle.back_core.specs.declared.ending.Ending.TheVariants.{Stopped};
ghost use Rattle.back_core.specs.Back.{ending_of};
ghost use Rattle.shared_gpu.specs.Notes.{events_of};

use crate::{Seat, Shared};
use back_core::BackLink;
use garbage::Garbage;
use std::marker::Model;
use std::sync::Wait;
use turnstile::{Naming, Turnstile};
use vk_device::Device;
use vk_types::{Batch, Handle, HandleId, Kind, QueueSerial, SerialIndex, Stop};

/// The link of a group to a back that stands behind a turnstile. Each call but `completed` takes turns there, and so may wait
/// for other threads; `completed` is one load. What other groups and the workers do between two turns changes nothing that
/// the group sees, but that more of its batches are retired. Its count of faults rises in a call that answers `Lost`, and
/// then the back was stopped by a loss.
pub struct Seated<'a, D: Device, R: Wait, N: Naming> {
    rt: &'a R,
    back: &'a Turnstile<Shared<D>>,
    seat: Seat<D, N>,
    faults: u64,
}

impl<'a, D: Device, R: Wait, N: Naming> Model for Seated<'a, D, R, N> {
    ghost use Rattle.std.specs.Prelude.{◌≡◌, ◌<◌};
    ghost use Rattle.vk_types.specs.declared.stops.Stop.TheVariants.{Lost};
    ghost use Rattle.back_core.specs.declared.ending.Ending.TheVariants.{Stopped};
    ghost use Rattle.back_core.specs.Back.{ending_of};
    ghost use Rattle.shared_gpu.specs.Notes.{events_of};
    ghost use Rattle.shared_gpu.specs.Views.{SeatedModel};

    ghost Value = { SeatedModel };

    ghost view = { λ s. record { seat = s.seat; faults = s.faults } };

    ghost invariant = { λ s. (s.back.now.name ≡ N.name) × (0 < s.faults → ending_of (events_of s.seat.pass.seen) ≡ Stopped Lost) };
}

// Counts an answer that says that the device was lost.
fn counted<T>(faults: &mut u64, answer: Result<T, Stop>) -> Result<T, Stop>
    ensures same { result ≡ answer }
    ensures cause { HasCause faults.old faults.new result }
    ensures rose { faults.old < faults.new → result ≡ Err Lost }
{
    if let Err(Stop::Lost) = &answer {
        *faults = faults.saturating_add(1);
    }
    answer
}

impl<'a, D: Device, R: Wait, N: Naming> Seated<'a, D, R, N> {
    /// The link of the group whose seat this is.
    pub fn new(rt: &'a R, back: &'a Turnstile<Shared<D>>, seat: Seat<D, N>) -> Seated<'a, D, R, N>
        requires { back.now.name ≡ N.name }
        ensures seat { result.seat ≡ seat }
        ensures faults { result.faults ≡ 0 }
    {
        Seated {
            rt,
            back,
            seat,
            faults: 0,
        }
    }

    /// The seat again.
    pub fn into_seat(self) -> Seat<D, N>
        ensures seat { result ≡ self.entry.seat }
        ensures lost { 0 < self.entry.faults → ending_of (events_of result.pass.seen) ≡ Stopped Lost }
    {
        let Seated {
            rt: _,
            back: _,
            seat,
            faults: _,
        } = self;
        seat
    }
}

impl<'a, D: Device, R: Wait, N: Naming> BackLink for Seated<'a, D, R, N> {
    ghost use Rattle.std.specs.Prelude.{None};
    ghost use Rattle.shared_gpu.specs.Seats.{seat_link};

    ghost state = { λ s. seat_link s.seat };

    ghost faults = { λ s. s.faults };

    ghost told = { λ s. None };

    fn create(&mut self, kind: Kind) -> Result<Handle, Stop> {
        let answer = self.seat.create(self.rt, self.back, kind);
        counted(&mut self.faults, answer)
    }

    fn write_host(&mut self, id: HandleId, at: u64, bytes: &[u8]) -> Result<(), Stop> {
        let answer = self.seat.write_host(self.rt, self.back, id, at, bytes);
        counted(&mut self.faults, answer)
    }

    fn enqueue(&mut self, batch: Batch) -> Result<(), Batch> {
        self.seat.enqueue(self.rt, self.back, batch)
    }

    fn completed(&mut self, index: SerialIndex) -> u64 {
        self.seat.completed(self.back, index)
    }

    fn wait_for(&mut self, serial: QueueSerial) -> Result<(), Stop> {
        let answer = self.seat.wait_for(self.rt, self.back, serial);
        counted(&mut self.faults, answer)
    }

    fn read_host(&mut self, id: HandleId, at: u64, out: &mut [u8]) -> Result<(), Stop> {
        let answer = self.seat.read_host(self.rt, self.back, id, at, out);
        counted(&mut self.faults, answer)
    }

    fn give(&mut self, item: Garbage) {
        self.seat.give(self.rt, self.back, item);
    }

    fn abandon(&mut self, handle: Handle) {
        self.seat.abandon(self.rt, self.back, handle);
    }
}
