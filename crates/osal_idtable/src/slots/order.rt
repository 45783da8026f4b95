//! The order of the slots by their names, which finds a name by halves.
ghost use Rattle.std.specs.Prelude.{◌≡◌, ◌<◌, ◌≤◌, length, MatchOption, MatchResult, IfSome, None, option_copied, slice_set};
ghost use Rattle.std.specs.Vec.{vec_capacity};
ghost use Rattle.osal_idtable.specs.declared.slot.Slot.TheVariants as slot;
ghost use Rattle.osal_idtable.specs.Order.{Agrees, HasNone, IsGapFor, IsLone, IsPlaceOf, name_cmp, name_in, slot_name};

use crate::slot::Slot;
use osal_base::Name;
use std::cmp::Ordering;

// How the name in a slot compares with this one.
fn compared<T>(slots: &[Slot<T>], at: usize, name: &Name) -> Ordering
    ensures { result ≡ name_cmp (name_in slots.now at) name.now }
{
    match slots.get(at) {
        None => Ordering::Less,
        Some(slot) => slot.compared(name),
    }
}

// The place of the name in the order, or the one where it would stand.
fn search<T>(slots: &[Slot<T>], order: &[u32], name: &Name) -> Result<usize, usize>
    requires { Agrees slots.now order.now }
    ensures { MatchResult result
        (IsPlaceOf (name_in slots.now) order.now name.now)
        (IsGapFor (name_in slots.now) order.now name.now) }
{
    order.binary_search_by(
        |at: &u32| -> Ordering
            ensures { result ≡ name_cmp (name_in slots.entry.now at.now) name.entry.now }
        { compared(slots, *at as usize, name) },
    )
}

/// The slot with the name. It compares as many names as the logarithm of those that there are.
pub(crate) fn slot_named<T>(slots: &[Slot<T>], order: &[u32], name: &Name) -> Option<usize>
    requires { Agrees slots.now order.now }
    ensures { MatchOption result (HasNone slots.now name.now) (IsLone slots.now name.now) }
{
    match search(slots, order, name) {
        Ok(place) => Some(order[place] as usize),
        Err(_) => None,
    }
}

/// Lists a free slot under the name that it will have, which no slot has.
pub(crate) fn enlist<T>(slots: &[Slot<T>], order: &mut Vec<u32>, at: usize, name: Option<&Name>)
    requires few { length slots.now ≤ 1024 }
    requires within { at < length slots.now }
    requires free { name_in slots.now at ≡ None }
    requires unused { IfSome (option_copied name) (HasNone slots.now) }
    requires room { length slots.now ≤ vec_capacity order.old }
    requires agrees { Agrees slots.now order.old.items }
    ensures agrees { (content : Slot T) → slot_name content ≡ option_copied name.entry → Agrees (slice_set slots.now at content) order.new.items }
    ensures room { vec_capacity order.new ≡ vec_capacity order.old }
{
    if let Some(name) = name {
        match search(slots, order.as_slice(), name) {
            Ok(_) => unreachable!(),
            Err(place) => order.insert(place, at as u32).unwrap(),
        }
    }
}

/// Takes a slot that becomes free out of the order.
pub(crate) fn delist<T>(slots: &[Slot<T>], order: &mut Vec<u32>, at: usize)
    requires within { at < length slots.now }
    requires agrees { Agrees slots.now order.old.items }
    ensures agrees { Agrees (slice_set slots.now at slot.Free) order.new.items }
    ensures room { vec_capacity order.new ≡ vec_capacity order.old }
{
    if let Some(name) = slots[at].name() {
        match search(slots, order.as_slice(), name) {
            Ok(place) => {
                order.remove(place);
            }
            Err(_) => unreachable!(),
        }
    }
}
