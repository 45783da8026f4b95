//! Sets of streams.
use osal_base::OsalId;
use osal_select::FdSet;
use std::test::Fail;

// A set of streams, added in this order.
fn set_of(numbers: &[u32]) -> FdSet {
    let mut set = FdSet::zero();
    for number in numbers {
        let _added = set.add(OsalId::of_raw(*number));
    }
    set
}

fn is_set_of(numbers: &[u32], wanted: &[u32]) -> bool {
    set_of(numbers).as_slice() == wanted
}

#[test]
fn streams_stand_in_order_and_once(rt: HostRuntime) {
    assert!(rt; is_set_of(&[3, 1, 2, 1], &[1, 2, 3]));
    assert!(rt; is_set_of(&[], &[]));
}

// A set with the streams 1 to 64.
fn full_set() -> FdSet {
    let mut set = FdSet::zero();
    for number in 1..65 {
        let _added = set.add(OsalId::of_raw(number));
    }
    set
}

#[test]
fn a_full_set_takes_none_that_it_has_not(rt: HostRuntime) {
    let mut set = full_set();
    assert!(rt; set.add(OsalId::of_raw(64)));
    assert!(rt; !set.add(OsalId::of_raw(65)));
}
