// For each index the number of the last batch that uses a resource.
ghost use Rattle.std.specs.Prelude.{◌≡◌, ◌==◌, ℕ, max, cond, [], IfOk, OnOk, OnErr, ◌∷◌, ◌++◌, IsTrue, IfNone, IfSome, ◌↔◌, ◌<◌, true, false, length, List, nat_le, slice_index, slice_index_or};
ghost use Rattle.std.specs.Bool.{OnTrue, OnFalse};
ghost use Rattle.vk_types.specs.declared.batches.QueueSerial.{QueueSerial};
ghost use Rattle.resource_use.specs.Uses.{number_of, noted, merged, Covers, are_covered, AreDistinct};

use crate::Use;
use smallvec::SmallVec;
use std::alloc::{AllocError, Global};
use std::marker::Model;
use vk_types::{QueueSerial, SerialIndex};

/// The last uses of a resource. Contracts see the list of its serials, whose indexes are distinct. Four of them need
/// no memory of their own.
#[derive(Debug, Drop)]
pub struct ResourceUse {
    serials: SmallVec<Use, 4>,
}

impl Model for ResourceUse {
    ghost use Rattle.std.specs.Prelude.{List};
    ghost use Rattle.vk_types.specs.declared.batches.QueueSerial.{QueueSerial};
    ghost use Rattle.resource_use.specs.Uses.{AreDistinct};

    ghost Value = { List QueueSerial };

    ghost view = { λ u. u.serials.items };

    ghost invariant = { λ u. AreDistinct u.serials.items };
}

impl ResourceUse {
    /// No use. This takes no memory.
    pub fn new(alloc: Global) -> ResourceUse
        ensures { result ≡ [] }
    {
        ResourceUse {
            serials: SmallVec::new(alloc),
        }
    }

    /// Notes a use: the index's number becomes the greater of the two. For want of memory the uses stay as they were.
    pub fn note(&mut self, serial: QueueSerial) -> Result<(), AllocError>
        ensures ok { OnOk result (self.new ≡ noted self.old serial) }
        ensures numbers { OnOk result ((i : ℕ) → number_of self.new i ≡ cond (serial.index == i) (max (number_of self.old i) serial.number) (number_of self.old i)) }
        ensures err { OnErr result (self.new ≡ self.old) }
    {
        note_in(&mut self.serials, serial)?;
        Ok(())
    }

    /// Notes each use of another resource. For want of memory the uses stay as they were.
    pub fn merge(&mut self, other: &ResourceUse) -> Result<(), AllocError>
        ensures ok { OnOk result (self.new ≡ merged self.old other.now) }
        ensures numbers { OnOk result ((i : ℕ) → number_of self.new i ≡ max (number_of self.old i) (number_of other.now i)) }
        ensures err { OnErr result (self.new ≡ self.old) }
    {
        let mut all = self.copy()?;
        for serial in other.serials.as_slice() {
            all.note(serial.serial())?;
        }
        *self = all;
        Ok(())
    }

    /// Whether the number of each use is at most the number that was read for its index: one walk over the uses.
    pub fn covered_by(&self, read: &[u64; 64]) -> bool
        ensures covers { IsTrue result ↔ Covers read.now self.now }
        ensures test { result ≡ are_covered read.now self.now }
    {
        self.serials
            .as_slice()
            .iter()
            .all(|one| one.is_covered_by(read))
    }

    /// The first use whose number is greater than the number that was read for its index; `None` exactly where there is none.
    /// Until that number is read the uses are not covered, whatever is read for the other indexes.
    pub fn waits_for(&self, read: &[u64; 64]) -> Option<QueueSerial>
        ensures none { IfNone result (are_covered read.now self.now ≡ true) }
        ensures beyond { IfSome result (λ one. slice_index read.now one.index < one.number) }
        ensures until { IfSome result (λ one. (later : List ℕ) → slice_index later one.index < one.number → are_covered later self.now ≡ false) }
    {
        first_beyond(self.serials.as_slice(), read)
    }

    /// The number of an index, 0 where the index is absent.
    pub fn number_of(&self, index: SerialIndex) -> u64
        ensures { result ≡ number_of self.now index }
    {
        number_in(self.serials.as_slice(), index)
    }

    /// No two of the uses have one index.
    pub fn has_one_number_each(&self)
        ensures { AreDistinct self.now }
    {
        let _serials = &self.serials;
    }

    /// The same uses.
    pub fn copy(&self) -> Result<ResourceUse, AllocError>
        ensures { IfOk result (λ copy. copy ≡ self.now) }
    {
        Ok(ResourceUse {
            serials: SmallVec::from_slice(*self.serials.allocator(), self.serials.as_slice())?,
        })
    }
}

// Raises the use of the serial's index, or puts the serial to the end.
fn note_in(serials: &mut SmallVec<Use, 4>, serial: QueueSerial) -> Result<(), AllocError>
    ensures ok { OnOk result (serials.new.items ≡ noted serials.old.items serial) }
    ensures err { OnErr result (serials.new.items ≡ serials.old.items) }
{
    if raise_first(serials.as_mut_slice(), &serial) {
        return Ok(());
    }
    serials.push(Use::of(serial))?;
    Ok(())
}

// Raises the use of the serial's index, and says whether there is one.
fn raise_first(uses: &mut [Use], serial: &QueueSerial) -> bool
    ensures raised { OnTrue result (uses.new ≡ noted uses.old serial.now) }
    ensures absent { OnFalse result (noted uses.old serial.now ≡ uses.old ++ serial.now ∷ []) }
    ensures unchanged { OnFalse result (uses.new ≡ uses.old) }
{
    match place_of(uses, serial.index) {
        Some(at) => {
            uses[at].raise(serial.number);
            true
        }
        None => false,
    }
}

// The number of the use of an index, 0 where there is none.
fn number_in(uses: &[Use], index: SerialIndex) -> u64
    ensures { result ≡ number_of uses.now index }
{
    match place_of(uses, index) {
        Some(at) => uses[at].serial().number,
        None => 0,
    }
}

// The first use whose number is greater than the number that was read for its index.
fn first_beyond(uses: &[Use], read: &[u64; 64]) -> Option<QueueSerial>
    ensures none { IfNone result (are_covered read.now uses.now ≡ true) }
    ensures beyond { IfSome result (λ one. slice_index read.now one.index < one.number) }
    ensures until { IfSome result (λ one. (later : List ℕ) → slice_index later one.index < one.number → are_covered later uses.now ≡ false) }
{
    match place_beyond(uses, read) {
        Some(at) => Some(uses[at].serial()),
        None => None,
    }
}

// The first place of a use whose number is greater than the number that was read for its index.
fn place_beyond(uses: &[Use], read: &[u64; 64]) -> Option<usize>
    ensures none { IfNone result ((k : ℕ) (d : QueueSerial) → k < length uses.now → nat_le (slice_index_or uses.now k d).number (slice_index read.now (slice_index_or uses.now k d).index) ≡ true) }
    ensures within { IfSome result (λ at. at < length uses.now) }
    ensures found { IfSome result (λ at. (d : QueueSerial) → slice_index read.now (slice_index_or uses.now at d).index < (slice_index_or uses.now at d).number) }
{
    uses.iter().position(|one| !one.is_covered_by(read))
}

// The first place of a use of the index.
fn place_of(uses: &[Use], index: SerialIndex) -> Option<usize>
    ensures none { IfNone result ((k : ℕ) (d : QueueSerial) → k < length uses.now → ((slice_index_or uses.now k d).index == index) ≡ false) }
    ensures within { IfSome result (λ at. at < length uses.now) }
    ensures found { IfSome result (λ at. (d : QueueSerial) → ((slice_index_or uses.now at d).index == index) ≡ true) }
    ensures first { IfSome result (λ at. (k : ℕ) (d : QueueSerial) → k < at → ((slice_index_or uses.now k d).index == index) ≡ false) }
{
    uses.iter().position(|one| one.has(index))
}
