//! Where the records of waits lie.
//!
//! A record is large, since a wait may stand on many objects. So each lies in a box of its own, which never moves: the
//! lists of waits hold what is as small as an identifier. The boxes are taken once, with the memory of a part, and go
//! from wait to wait.
ghost use Rattle.std.specs.Prelude.{◌≡◌, ◌≤◌, true, is_some, length, IfOk};
ghost use Rattle.std.specs.Vec.{vec_capacity};

use crate::waits::WaitRecord;
use osal_base::OutOfMemory;
use std::alloc::Global;
use std::marker::Model;

/// A box for the record of a wait that is to come.
#[derive(Debug, Drop)]
pub(crate) struct Place<W> {
    room: Box<Option<WaitRecord<W>>>,
}

/// A box with the record of an open wait. It is seen as the record.
#[derive(Debug, Drop)]
pub(crate) struct Held<W> {
    room: Box<Option<WaitRecord<W>>>,
    ghost full: { is_some room.value ≡ true },
}

impl<W> Model for Held<W> {
    ghost use Rattle.osal_object.specs.declared.waits.WaitRecord.{WaitRecord};
    ghost use Rattle.osal_object.specs.Held.{held};

    ghost Value = { WaitRecord W };

    ghost view = { λ a. held a.room.value a.full };

    ghost invariant = { λ a. Unit {0} };
}

impl<W: Drop> Place<W> {
    fn new(alloc: Global) -> Result<Place<W>, OutOfMemory> {
        Ok(Place {
            room: Box::new(alloc, None)?,
        })
    }

    /// The same box, with a record in it.
    pub(crate) fn fill(self, wait: WaitRecord<W>) -> Held<W>
        ensures { result ≡ wait }
    {
        let mut room = self.room;
        *room = Some(wait);
        Held { room }
    }
}

impl<W> Held<W> {
    /// The record.
    pub(crate) fn record(&self) -> &WaitRecord<W>
        ensures { result.now ≡ self.now }
    {
        self.room.as_ref().as_ref().unwrap()
    }

    /// Marks the wait as released.
    pub(crate) fn release(&mut self)
        ensures { self.new ≡ record self.old { released = true } }
    {
        match self.room.as_mut() {
            Some(wait) => wait.released = true,
            None => unreachable!(),
        }
    }
}

impl<W: Drop> Held<W> {
    /// The same box, for a wait that is to come.
    pub(crate) fn empty(self) -> Place<W> {
        let mut room = self.room;
        *room = None;
        Place { room }
    }
}

/// So many boxes.
pub(crate) fn places<W: Drop>(alloc: Global, count: u32) -> Result<Vec<Place<W>>, OutOfMemory>
    ensures count { IfOk result (λ places. length places.items ≡ count) }
    ensures room { IfOk result (λ places. count ≤ vec_capacity places) }
{
    let mut places = Vec::with_capacity(alloc, count as usize)?;
    for _i in 0..count {
        places.push_reserved(Place::new(alloc)?);
    }
    Ok(places)
}
