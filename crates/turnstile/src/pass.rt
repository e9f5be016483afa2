//! What a thread has of a turnstile.
use crate::chronicle::Chronicle;
use crate::rule::Place;
use std::marker::Model;
use std::snapshot::Snapshot;

/// The right to take turns, under a number of its own, and what its thread knows: the history that it has seen and what its loads found. It has no bytes.
#[derive(Drop)]
pub struct Pass<V: Chronicle> {
    pub(crate) seat: Place<V>,
}

impl<V: Chronicle> Model for Pass<V> {
    ghost use Rattle.turnstile.specs.Views.{PassModel};

    ghost Value = { PassModel V.Entry };

    ghost use Rattle.turnstile.specs.Passes.{shown, IsSound};

    ghost view = { λ p. shown p.seat };

    ghost invariant = { λ p. IsSound V.names p.seat };
}

/// The value, while its pass has it. Only `put` spends it.
pub struct Turn<V: Chronicle> {
    pub value: V,
    pub(crate) taken: Snapshot<Pass<V>>,
}
