//! The slots behind a table.
ghost use Rattle.std.specs.Prelude.{◌≡◌, ◌<◌, ◌≤◌, length, replicate, IfOk, IfSome, IsTrue, false, option_copied, Ok, Err};
ghost use Rattle.osal_base.specs.Identifier.{type_number};
ghost use Rattle.osal_base.specs.Limits.{IsCapacity};
ghost use Rattle.osal_idtable.specs.declared.slot.Slot.TheVariants as slot;
ghost use Rattle.osal_idtable.specs.Slots.{SlotsState, is_free, slot_at, written, is_used, is_open, next_open};
ghost use Rattle.osal_idtable.specs.Order.{slot_name};
ghost use Rattle.osal_idtable.specs.Steps.{peeked};
ghost use Rattle.osal_idtable.specs.SlotSteps.{slot_reserve};

mod change;
mod look;
mod order;
mod scan;

use crate::place::Place;
use crate::slot::{Slot, copied};
use crate::{ReserveFault, Token};
use order::{enlist, slot_named};
use osal_base::{Name, ObjType, OsalId, OutOfMemory};
use scan::free_slots;
use std::alloc::Global;
use std::marker::Model;
use std::mem;

/// The slots of a table, seen as the list of them.
///
/// Beside them `order` has the numbers of the slots with a name, by rising names.
#[derive(Drop)]
pub(crate) struct Slots<T> {
    kind: ObjType,
    slots: Vec<Slot<T>>,
    order: Vec<u32>,
    last: Place,
}

impl<T> Model for Slots<T> {
    ghost use Rattle.std.specs.Prelude.{◌≤◌, length};
    ghost use Rattle.osal_base.specs.Identifier.{type_number};
    ghost use Rattle.osal_idtable.specs.Slots.{SlotsState};
    ghost use Rattle.osal_idtable.specs.Order.{Agrees};
    ghost use Rattle.std.specs.Vec.{vec_capacity};

    ghost Value = { SlotsState T };

    ghost view = { λ a. record {
      kind = type_number a.kind;
      slots = a.slots.items;
      last = a.last.serial;
      wraps = a.last.wraps;
    } };

    ghost invariant = { λ a. (1 ≤ length a.slots.items) × (length a.slots.items ≤ 1024)
        × (length a.slots.items ≤ vec_capacity a.order) × Agrees a.slots.items a.order.items };
}

impl<T> Slots<T> {
    /// Free slots, so many as the capacity is.
    pub(crate) fn new(alloc: Global, kind: ObjType, capacity: u32) -> Result<Slots<T>, OutOfMemory>
        requires { IsCapacity capacity }
        ensures { IfOk result (λ made. made ≡ record {
          kind = type_number kind;
          slots = replicate capacity slot.Free;
          last = 0;
          wraps = 0;
        }) }
    {
        let order = Vec::with_capacity(alloc, capacity as usize)?;
        let slots = free_slots(alloc, capacity)?;
        Ok(Slots {
            kind,
            slots,
            order,
            last: Place {
                serial: 0,
                wraps: 0,
            },
        })
    }

    pub(crate) fn capacity(&self) -> u32
        ensures value { result ≡ length self.now.slots }
        ensures some { 1 ≤ result }
        ensures few { result ≤ 1024 }
    {
        self.slots.len() as u32
    }

    fn at(&self, id: OsalId) -> &Slot<T>
        ensures { result.now ≡ slot_at self.now id }
    {
        &self.slots[id.index(self.capacity()) as usize]
    }

    // Puts another content with the same name into the slot of the identifier, and gives the old one.
    fn write(&mut self, id: OsalId, content: Slot<T>) -> Slot<T>
        requires { slot_name content ≡ slot_name (slot_at self.old id) }
        ensures old { result ≡ slot_at self.old id }
        ensures new { self.new ≡ written self.old id content }
    {
        let at = id.index(self.capacity()) as usize;
        mem::replace(&mut self.slots[at], content)
    }

    // Whether some slot has the optional name.
    fn is_used(&self, name: Option<&Name>) -> bool
        ensures { result ≡ is_used self.now (option_copied name.entry) }
    {
        match name {
            None => false,
            Some(name) => {
                slot_named(self.slots.as_slice(), self.order.as_slice(), name).is_some()
            }
        }
    }

    fn is_open(&self, place: Place) -> bool
        ensures { result ≡ is_open self.now place }
    {
        let id = OsalId::compose(self.kind, place.serial);
        matches!(self.at(id), Slot::Free)
    }

    // The first place whose slot is free. Looks at each slot once at most.
    fn next_open(&self) -> Option<Place>
        ensures value { result ≡ next_open self.now }
        ensures open { IfSome result (λ place. IsTrue (is_open self.now place)) }
    {
        let capacity = self.capacity();
        let mut place = self.last;
        for _i in 0..capacity {
            place = place.after(capacity);
            if self.is_open(place) {
                return Some(place);
            }
        }
        None
    }

    pub(crate) fn reserve(&mut self, name: Option<Name>) -> Result<Token, ReserveFault>
        ensures { (result, self.new) ≡ slot_reserve self.old name }
    {
        if self.is_used(name.as_ref()) {
            return Err(ReserveFault::NameTaken);
        }
        let Some(place) = self.next_open() else {
            return Err(ReserveFault::NoFreeIds);
        };
        let id = OsalId::compose(self.kind, place.serial);
        self.issue(id, copied(&name));
        self.last = place;
        Ok(Token::new(id, name))
    }

    // Reserves the identifier under the name, which no slot has, in a slot that is free.
    fn issue(&mut self, id: OsalId, name: Option<Name>)
        requires free { IsTrue (is_free (slot_at self.old id)) }
        requires unused { is_used self.old name ≡ false }
        ensures { self.new ≡ written self.old id (slot.Reserved id name) }
    {
        let at = id.index(self.capacity()) as usize;
        enlist(self.slots.as_slice(), &mut self.order, at, name.as_ref());
        match mem::replace(&mut self.slots[at], Slot::Reserved { id, name }) {
            Slot::Free => (),
            Slot::Reserved { id: _, name: _ } => (),
            Slot::Active {
                id: _,
                name: _,
                holds: _,
                object: _,
            } => unreachable!(),
        }
    }

    pub(crate) fn peek(&self, name: Option<&Name>) -> Result<OsalId, ReserveFault>
        ensures { result ≡ peeked (slot_reserve self.now (option_copied name.entry)).0 }
    {
        if self.is_used(name) {
            return Err(ReserveFault::NameTaken);
        }
        let Some(place) = self.next_open() else {
            return Err(ReserveFault::NoFreeIds);
        };
        Ok(OsalId::compose(self.kind, place.serial))
    }

    pub(crate) fn last(&self) -> Place
        ensures serial { result.serial ≡ self.now.last }
        ensures wraps { result.wraps ≡ self.now.wraps }
    {
        self.last
    }
}
