// One use of a resource, which fills the places of a short list too.
ghost use Rattle.std.specs.Prelude.{◌≡◌, ◌==◌, ◌≤◌, max, nat_le, slice_index};

use std::default::Default;
use std::marker::Model;
use vk_types::{QueueSerial, SerialIndex};

/// One use of a resource. Contracts see its serial.
#[derive(Clone, Copy, Debug)]
pub(crate) struct Use(QueueSerial);

impl Model for Use {
    ghost use Rattle.vk_types.specs.declared.batches.QueueSerial.{QueueSerial};

    ghost Value = { QueueSerial };

    ghost view = { λ u. u.0 };

    ghost inverse = { λ s. record { 0 = s } };
}

impl Default for Use {
    fn default() -> Use {
        Use(QueueSerial {
            index: SerialIndex::new(0),
            number: 0,
        })
    }
}

impl Use {
    pub(crate) fn of(serial: QueueSerial) -> Use
        ensures { result ≡ serial }
    {
        Use(serial)
    }

    pub(crate) fn serial(&self) -> QueueSerial
        ensures { result ≡ self.now }
    {
        self.0
    }

    /// Whether the use is of this index.
    pub(crate) fn has(&self, index: SerialIndex) -> bool
        ensures { result ≡ (self.now.index == index) }
    {
        self.0.index == index
    }

    /// The greater of the two numbers.
    pub(crate) fn raise(&mut self, number: u64)
        ensures { self.new ≡ record self.old { number = max self.old.number number } }
    {
        self.0.number = self.0.number.max(number);
    }

    /// Whether its number is at most the number that was read for its index.
    pub(crate) fn is_covered_by(&self, read: &[u64; 64]) -> bool
        ensures { result ≡ nat_le self.now.number (slice_index read.now self.now.index) }
    {
        self.0.number <= read[usize::from(self.0.index.get())]
    }
}
