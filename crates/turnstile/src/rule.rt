//! The table of a turnstile: what a pass knows, the rule, and what each step tells.
//! Word 0 is the number of entries of the history, the words 1 to 64 are published numbers, and word 65 is 1 while a pass holds a turn.
use crate::chronicle::Chronicle;
use atomic_table::{Join, Play, Seat, Split, Table, TableRule};
use std::alloc::Global;
use std::collections::LinkedList;
use std::marker::PhantomData;
use std::snapshot::Snapshot;

pub(crate) const WORDS: usize = 66;

pub(crate) const COUNT: usize = 0;

pub(crate) const HOLDERS: usize = 65;

/// What a pass knows. No value of it is made.
pub struct View<E> {
    /// It was not joined into another.
    pub live: bool,
    pub number: u64,
    /// Of pass 0, how many passes were made.
    pub made: u64,
    /// The numbers of the passes that were joined into it.
    pub joined: LinkedList<u64>,
    pub seen: LinkedList<E>,
    /// The numbers of a pass that is being joined, and what it had seen.
    pub guests: LinkedList<u64>,
    pub aside: LinkedList<E>,
    /// Its loads of published words, each with the number that was found.
    pub loads: LinkedList<(u64, u64)>,
    /// The number of entries that its last load of the count found.
    pub counted: u64,
    /// A turn of it is out.
    pub holds: bool,
    /// While its turn is out, what the words hold. At other times what they held when it last knew them all: no word but the last has fallen since.
    pub words: LinkedList<u64>,
}

/// What a table is made with.
#[derive(Drop)]
pub struct Opening<V> {
    pub value: Snapshot<V>,
    pub words: Snapshot<[u64; WORDS]>,
}

pub(crate) type Board<V> = Table<
    Option<V>,
    View<<V as Chronicle>::Entry>,
    Opening<V>,
    Ordered<V>,
    Global,
>;

pub(crate) type Place<V> = Seat<Option<V>, View<<V as Chronicle>::Entry>>;

/// The rule.
pub struct Ordered<V> {
    of: PhantomData<V>,
}

impl<V: Chronicle> TableRule<Option<V>, View<V::Entry>, Opening<V>> for Ordered<V> {
    ghost use Rattle.turnstile.specs.Rule.{Kept, opened};

    ghost holds = { λ _. Kept V.history V.published V.names };

    ghost first = { λ key. opened (V.history key.value.value) key.words.value };
}

/// Word 65 goes from 0 to 1, and the slot is taken.
pub(crate) struct Gain;

impl<V: Chronicle> Play<Option<V>, View<V::Entry>> for Gain {
    ghost use Rattle.turnstile.specs.Steps.{gained};

    ghost then = { gained V.history V.published V.names };
}

/// The holder stores the number of entries, or a published number.
pub(crate) struct Store;

impl<V: Chronicle> Play<Option<V>, View<V::Entry>> for Store {
    ghost use Rattle.turnstile.specs.Steps.{stored};

    ghost then = { stored };
}

/// A load of a published word.
pub(crate) struct LoadPublished;

impl<V: Chronicle> Play<Option<V>, View<V::Entry>> for LoadPublished {
    ghost use Rattle.turnstile.specs.Steps.{looked};

    ghost then = { looked };
}

/// A load of the number of entries.
pub(crate) struct LoadCount;

impl<V: Chronicle> Play<Option<V>, View<V::Entry>> for LoadCount {
    ghost use Rattle.turnstile.specs.Steps.{counted};

    ghost then = { counted };
}

/// Word 65 goes back to 0, and the slot is given back.
pub(crate) struct Leave;

impl<V: Chronicle> Play<Option<V>, View<V::Entry>> for Leave {
    ghost use Rattle.turnstile.specs.Steps.{left};

    ghost then = { left V.history };
}

/// A pass that was joined is taken in.
pub(crate) struct TakeLonger;

impl<V: Chronicle> Play<Option<V>, View<V::Entry>> for TakeLonger {
    ghost use Rattle.turnstile.specs.Steps.{merged};

    ghost then = { merged V.names };
}

/// A new pass has seen what pass 0 had seen.
pub(crate) struct SplitPass;

impl<E> Split<View<E>> for SplitPass {
    ghost use Rattle.turnstile.specs.Rule.{counting_one_more, next_pass};

    ghost left = { counting_one_more };

    ghost right = { next_pass };
}

/// What the other had seen is set aside, for `TakeLonger`.
pub(crate) struct JoinPass;

impl<E> Join<View<E>> for JoinPass {
    ghost use Rattle.turnstile.specs.Rule.{beside, spent};

    ghost both = { beside };

    ghost spent = { spent };
}
