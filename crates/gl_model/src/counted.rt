ghost use Rattle.std.specs.Prelude.{◌≡◌, ◌<◌, ◌≤◌, ◌^◌, ℕ, IsTrue, OnOk, OnErr, [], length, unwrap_or};
ghost use Rattle.std.specs.Option.{option_copied, option_map};
ghost use Rattle.tables.specs.Table.{entry, has, with_entry, without};
ghost use Rattle.gl_model.specs.Storage.{image_bytes};
ghost use Rattle.gl_model.specs.Counted.{IsCounted, total_bytes};

use crate::objects::{BufferFacts, ImageInfo};
use crate::storage::bytes_of;
use std::alloc::{AllocError, Global};
use std::marker::Model;
use tables::Table;

/// What takes a number of bytes, less than 2^80.
pub trait HasBytes {
    ghost bytes: { Self → ℕ };

    /// The bytes that it takes.
    fn bytes(&self) -> u128
        ensures bytes { result ≡ bytes self.now }
        ensures bound { result < 2 ^ 80 };
}

impl HasBytes for BufferFacts {
    ghost bytes = { λ facts. facts.size };

    fn bytes(&self) -> u128 {
        self.size as u128
    }
}

impl HasBytes for Option<ImageInfo> {
    ghost bytes = { image_bytes };

    fn bytes(&self) -> u128 {
        bytes_of(*self)
    }
}

/// The bytes of what a table has under a key, and 0 where it has nothing there.
fn bytes_at<V: HasBytes + Drop>(table: &Table<V>, key: u32) -> u128
    ensures { result ≡ unwrap_or (option_map V.bytes (entry key table.now)) 0 }
{
    match table.get(key) {
        Some(value) => value.bytes(),
        None => 0,
    }
}

/// The sum of a table once a value is set under a key.
fn exchanged<V: HasBytes + Drop>(table: &Table<V>, sum: u128, key: u32, value: &V) -> u128
    requires { IsCounted V.bytes table.now sum }
    ensures { IsCounted V.bytes (with_entry key value.now table.now) result }
{
    sum - bytes_at(table, key) + value.bytes()
}

/// A table that keeps the sum of the bytes of its values, so that it is not walked for them. It is seen as the table alone.
#[derive(Drop)]
pub struct Counted<V: HasBytes> {
    table: Table<V>,
    sum: u128,
}

impl<V: HasBytes> Model for Counted<V> {
    ghost use Rattle.std.specs.Prelude.{List, ℕ};

    ghost Value = { List (ℕ × V) };

    ghost use Rattle.gl_model.specs.Counted.{IsCounted};

    ghost view = { λ c. c.table };

    ghost invariant = { λ c. IsCounted V.bytes c.table c.sum };
}

impl<V: HasBytes + Drop> Counted<V> {
    /// An empty table.
    pub fn new(alloc: Global) -> Counted<V>
        ensures { result ≡ [] }
    {
        Counted {
            table: Table::new(alloc),
            sum: 0,
        }
    }

    /// The bytes of all values. This does not walk the table.
    pub fn total(&self) -> u128
        ensures total { result ≡ total_bytes V.bytes self.now }
        ensures bound { result ≤ 2 ^ 112 }
    {
        self.sum
    }

    /// What the table has under a key.
    pub fn get(&self, key: u32) -> Option<&V>
        ensures { option_copied result ≡ entry key self.now }
    {
        self.table.get(key)
    }

    /// Whether the table has a key.
    pub fn contains_key(&self, key: u32) -> bool
        ensures { result ≡ has key self.now }
    {
        self.table.contains_key(key)
    }

    /// How many entries there are.
    pub fn len(&self) -> usize
        ensures { result ≡ length self.now }
    {
        self.table.len()
    }

    /// Sets one entry.
    pub fn insert(&mut self, key: u32, value: V) -> Result<(), AllocError>
        ensures ok { OnOk result (self.new ≡ with_entry key value self.old) }
        ensures err { OnErr result (self.new ≡ self.old) }
    {
        let sum = exchanged(&self.table, self.sum, key, &value);
        self.table.insert(key, value)?;
        self.sum = sum;
        Ok(())
    }

    /// Sets an entry that is there. This takes no memory.
    pub fn replace(&mut self, key: u32, value: V)
        requires { IsTrue (has key self.old) }
        ensures { self.new ≡ with_entry key value self.old }
    {
        self.sum = exchanged(&self.table, self.sum, key, &value);
        self.table.replace(key, value);
    }

    /// Takes one entry out.
    pub fn remove(&mut self, key: u32)
        ensures { self.new ≡ without key self.old }
    {
        self.sum -= bytes_at(&self.table, key);
        self.table.remove(key);
    }
}
