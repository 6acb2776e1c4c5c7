ghost use Rattle.std.specs.Prelude.{◌≡◌, ◌<◌, SomeIff};
ghost use Rattle.store.specs.Slots.{slot_count};

use crate::sizes::SLOTS;
use std::marker::Model;

// A slot of a store, by its number.
#[derive(Clone, Copy, PartialEq, Eq)]
pub struct Slot {
    index: usize,
}

impl Model for Slot {
    ghost use Rattle.std.specs.Prelude.{ℕ, ◌<◌};
    ghost use Rattle.store.specs.Slots.{slot_count};

    ghost Value = { ℕ };

    ghost view = { λ s. s.index };

    ghost invariant = { λ s. s.index < slot_count };

    ghost inverse = { λ n. record { index = n } };
}

impl Slot {
    // The slot with a number, where a store has one.
    pub fn new(index: usize) -> Option<Slot>
        ensures { SomeIff result (index < slot_count) index }
    {
        if index < SLOTS {
            return Some(Slot { index });
        }
        None
    }

    // The slot with a number that a store has: `for i in 0..SLOTS` goes over all of them.
    pub fn at(index: usize) -> Slot
        requires { index < slot_count }
        ensures { result ≡ index }
    {
        Slot { index }
    }

    pub fn index(self) -> usize
        ensures { (result ≡ self) × (result < slot_count) }
    {
        self.index
    }
}
