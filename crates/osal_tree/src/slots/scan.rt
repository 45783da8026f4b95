//! Looks over all slots.
ghost use Rattle.std.specs.Prelude.{◌≡◌, ◌≤◌, length, replicate, IfOk, None};
ghost use Rattle.std.specs.List.{list_any};
ghost use Rattle.osal_tree.specs.Slots.{child, is_in, free_slot};
ghost use Rattle.osal_tree.specs.Sound.{taken};

use crate::node::{Node, Place, is_at, is_in};
use osal_base::{Name, OutOfMemory};
use std::alloc::Global;

pub(crate) fn free_slots(alloc: Global) -> Result<Vec<Option<Node>>, OutOfMemory>
    ensures { IfOk result (λ slots. slots.items ≡ replicate 256 None) }
{
    let mut slots = Vec::with_capacity(alloc, 256)?;
    for _i in 0..256u32 {
        slots.push_reserved(None);
    }
    Ok(slots)
}

pub(crate) fn first_at(slots: &[Option<Node>], home: Place, name: &Name) -> Option<u8>
    requires { length slots.now ≤ 256 }
    ensures { result ≡ child slots.now home name.now }
{
    for i in 0..slots.len() {
        if is_at(&slots[i], home, name) {
            return Some(i as u8);
        }
    }
    None
}

pub(crate) fn first_free(slots: &[Option<Node>]) -> Option<u8>
    requires { length slots.now ≤ 256 }
    ensures { result ≡ free_slot slots.now }
{
    for i in 0..slots.len() {
        if slots[i].is_none() {
            return Some(i as u8);
        }
    }
    None
}

pub(crate) fn any_in(slots: &[Option<Node>], home: Place) -> bool
    ensures { result ≡ list_any (is_in home) slots.now }
{
    slots.iter().any(|slot| is_in(slot, home))
}

pub(crate) fn count_taken(slots: &[Option<Node>]) -> u32
    requires { length slots.now ≤ 256 }
    ensures { result ≡ taken slots.now }
{
    let mut count = 0;
    for slot in slots {
        if slot.is_some() {
            count += 1;
        }
    }
    count
}
