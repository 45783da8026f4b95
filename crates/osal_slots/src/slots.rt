//! Where what belongs to an identifier stands.
ghost use Rattle.std.specs.Prelude.{◌≡◌, ◌<◌, length, option_copied, replicate, IfOk, None};
ghost use Rattle.osal_slots.specs.Slots.{in_slot, slot_among};

use osal_base::{OsalId, OutOfMemory};
use std::alloc::Global;

/// So many slots in which nothing stands.
pub fn empty_slots<T>(alloc: Global, count: u32) -> Result<Vec<Option<T>>, OutOfMemory>
    ensures { IfOk result (λ slots. slots.items ≡ replicate count None) }
{
    let mut slots = Vec::with_capacity(alloc, count as usize)?;
    for _i in 0..count {
        slots.push_reserved(None);
    }
    Ok(slots)
}

/// The slot of an identifier among some places: its serial modulo their number.
pub fn slot_among<T>(places: &[Option<T>], id: OsalId) -> usize
    requires { 0 < length places.now }
    ensures value { result ≡ slot_among places.now id }
    ensures within { result < length places.now }
{
    usize::from(id.serial()) % places.len()
}

/// What stands in the slot of an identifier.
pub fn in_slot<T>(places: &[Option<T>], id: OsalId) -> Option<&T>
    requires { 0 < length places.now }
    ensures { option_copied result ≡ in_slot places.now id }
{
    places[slot_among(places, id)].as_ref()
}
