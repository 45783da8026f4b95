//! Looks over all slots.
ghost use Rattle.std.specs.Prelude.{◌≡◌, ◌<◌, ◌≤◌, length, replicate, IfOk, MatchOption, count_by, Ok};
ghost use Rattle.osal_idtable.specs.declared.slot.Slot.TheVariants as slot;
ghost use Rattle.osal_idtable.specs.Slots.{is_live, NoneLive, FirstLive};

use crate::slot::Slot;
use osal_base::{OsalId, OutOfMemory};
use std::alloc::Global;

pub(crate) fn free_slots<T>(alloc: Global, capacity: u32) -> Result<Vec<Slot<T>>, OutOfMemory>
    ensures { IfOk result (λ slots. slots.items ≡ replicate capacity slot.Free) }
{
    let mut slots = Vec::with_capacity(alloc, capacity as usize)?;
    for _i in 0..capacity {
        slots.push_reserved(Slot::Free);
    }
    Ok(slots)
}

pub(crate) fn count_live<T>(slots: &[Slot<T>]) -> u32
    requires { length slots.now ≤ 1024 }
    ensures { result ≡ count_by is_live slots.now }
{
    slots.iter().filter(|slot| slot.is_live()).count() as u32
}

pub(crate) fn first_live<T>(slots: &[Slot<T>], start: usize) -> Option<OsalId>
    ensures { MatchOption result (NoneLive slots.now start) (FirstLive slots.now start) }
{
    for i in start..slots.len() {
        let found = slots[i].live_id();
        if found.is_some() {
            return found;
        }
    }
    None
}
