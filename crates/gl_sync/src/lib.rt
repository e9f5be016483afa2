//! Sync objects by their numbers (OpenGL ES 3.0.6, Sync Objects and Fences; EGL 1.5, Synchronization Primitives).
//!
//! A share group has one such table for GL syncs and one for EGL syncs. Contracts see a table as its
//! entries in rising order of the numbers.
#![tactic(auto)]

ghost use Rattle.std.specs.Prelude.{◌≡◌, IsTrue, not, OnOk, OnErr, []};
ghost use Rattle.tables.specs.Table.{entry, has, with_entry, without};

use std::alloc::{AllocError, Global};
use std::marker::Model;
use tables::Table;
use vk_types::QueueSerial;

/// Sync objects, each with the serial of the batch that signals it.
#[derive(Drop)]
pub struct Syncs {
    table: Table<QueueSerial>,
}

impl Model for Syncs {
    ghost use Rattle.std.specs.Prelude.{List, ℕ};
    ghost use Rattle.vk_types.specs.declared.batches.QueueSerial.{QueueSerial};

    ghost Value = { List (ℕ × QueueSerial) };

    ghost view = { λ s. s.table };
}

impl Syncs {
    /// No sync objects. This takes no memory.
    pub fn new(alloc: Global) -> Syncs
        ensures { result ≡ [] }
    {
        Syncs {
            table: Table::new(alloc),
        }
    }

    /// Adds the sync of a number that has none. For want of memory nothing is added.
    pub fn insert(&mut self, number: u16, serial: QueueSerial) -> Result<(), AllocError>
        requires { IsTrue (not (has number self.old)) }
        ensures ok { OnOk result (self.new ≡ with_entry number serial self.old) }
        ensures err { OnErr result (self.new ≡ self.old) }
    {
        self.table.insert(u32::from(number), serial)
    }

    /// The serial of a number's sync, and None where the number has none.
    pub fn serial_of(&self, number: u16) -> Option<QueueSerial>
        ensures { result ≡ entry number self.now }
    {
        self.table.get(u32::from(number)).copied()
    }

    /// Takes a number's sync out. The answer says whether the number had one.
    pub fn remove(&mut self, number: u16) -> bool
        ensures had { result ≡ has number self.old }
        ensures table { self.new ≡ without number self.old }
    {
        let key = u32::from(number);
        let had = self.table.contains_key(key);
        self.table.remove(key);
        had
    }
}
