//! A slot that was taken out of its handle.
ghost use Rattle.std.specs.Prelude.{◌≡◌};
ghost use Rattle.std.specs.Borrow.{Lends, sem};
ghost use Rattle.session_slots.specs.contracts.held.Held.{the_row};
ghost use Rattle.session_slots.specs.contracts.slot.Slot.{the_row as slot_row};

use crate::slot::Slot;
use std::alloc::Global;
use std::marker::Model;

/// A slot that was taken out of its handle. It must be put back or freed.
pub struct Held {
    slot: Box<Slot, Global>,
}

impl Model for Held {
    ghost use Rattle.session_slots.specs.declared.slot.Slot.{Slot};

    ghost Value = { Slot };

    ghost view = { λ h. h.slot.value };
}

impl Held {
    pub(crate) fn of(slot: Box<Slot, Global>) -> Held
        ensures { result ≡ slot.value }
    {
        Held { slot }
    }

    pub(crate) fn into_box(self) -> Box<Slot, Global>
        ensures { result.value ≡ self }
    {
        let Held { slot } = self;
        slot
    }

    pub fn slot(&self) -> &Slot
        ensures { result.now ≡ self.now }
    {
        &self.slot
    }

    pub fn slot_mut(&mut self) -> &mut Slot
        ensures* writes_back { sem 𝓛 (Lends the_row slot_row self.entry result (λ w. w)) }
        ensures value { result.now ≡ self.old }
    {
        &mut self.slot
    }

    /// Frees it.
    pub fn free(self) {
        let Held { slot } = self;
        drop(slot);
    }
}
