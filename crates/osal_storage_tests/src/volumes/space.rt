//! Which writes there are blocks for.
use super::Answer::{Done, Gives, Is, Refused};
use super::Call::{Create, Free, Kind as Look, Mkdir, Read, Remove, Truncate, Write};
use super::{Row, follow};
use osal_volume::{Kind, VolFault};
use std::test::Fail;

/// A file grows onto the blocks that another one gave back.
const GIVEN_BACK: [Row; 12] = [
    (b"/v/a", Create, Done),
    (b"/v/a", Write(0, 1500, b'a'), Gives(1500)),
    (b"/v", Free, Gives(1)),
    (b"/v/b", Create, Done),
    (b"/v/b", Write(0, 512, b'b'), Gives(512)),
    (b"/v", Free, Gives(0)),
    (b"/v/a", Remove, Done),
    (b"/v", Free, Gives(3)),
    (b"/v/b", Write(512, 1600, b'c'), Gives(1536)),
    (b"/v", Free, Gives(0)),
    (b"/v/b", Read(0, 512, b'b'), Gives(512)),
    (b"/v/b", Read(512, 1024, b'c'), Gives(1024)),
];

#[test]
fn blocks_that_are_given_back_are_taken_again(rt: HostRuntime) {
    assert_eq!(rt; follow(&rt, 4, &GIVEN_BACK), None);
}

/// A file of all four blocks, and what cannot be there beside it.
const FULL: [Row; 12] = [
    (b"/v/a", Create, Done),
    (b"/v/a", Write(0, 2049, b'a'), Gives(2048)),
    (b"/v/a", Look, Is(Some(Kind::File(2048)))),
    (b"/v/a", Write(2048, 1, b'a'), Refused(VolFault::NoSpace)),
    (b"/v/a", Write(2047, 2, b'b'), Gives(1)),
    (b"/v/a", Read(1536, 511, b'a'), Gives(511)),
    (b"/v/a", Read(2047, 1024, b'b'), Gives(1)),
    (b"/v/a", Read(2048, 1024, b'b'), Gives(0)),
    (b"/v/d", Mkdir, Refused(VolFault::NoSpace)),
    (b"/v/b", Create, Done),
    (b"/v/b", Write(0, 1, b'b'), Refused(VolFault::NoSpace)),
    (b"/v/b", Look, Is(Some(Kind::File(0)))),
];

#[test]
fn a_full_volume_takes_files_without_bytes_alone(rt: HostRuntime) {
    assert_eq!(rt; follow(&rt, 4, &FULL), None);
}

/// Nothing fits behind a gap for which there is no block.
const TOO_FAR: [Row; 7] = [
    (b"/v/a", Create, Done),
    (b"/v/a", Write(600, 1, b'a'), Refused(VolFault::NoSpace)),
    (b"/v/a", Write(512, 1, b'a'), Refused(VolFault::NoSpace)),
    (
        b"/v/a",
        Write(4294967295, 2, b'a'),
        Refused(VolFault::NoSpace),
    ),
    (b"/v/a", Look, Is(Some(Kind::File(0)))),
    (b"/v", Free, Gives(1)),
    (b"/v/a", Write(511, 2, b'a'), Gives(1)),
];

/// A gap over blocks that other bytes stood on.
const GAP: [Row; 9] = [
    (b"/v/a", Create, Done),
    (b"/v/a", Write(0, 1024, b'a'), Gives(1024)),
    (b"/v/a", Truncate, Done),
    (b"/v/b", Create, Done),
    (b"/v/b", Write(600, 1, b'b'), Gives(1)),
    (b"/v/b", Read(0, 600, 0), Gives(600)),
    (b"/v/b", Read(600, 1024, b'b'), Gives(1)),
    (b"/v/b", Look, Is(Some(Kind::File(601)))),
    (b"/v", Free, Gives(0)),
];

#[test]
fn a_gap_counts_and_reads_zeros(rt: HostRuntime) {
    assert_eq!(rt; follow(&rt, 1, &TOO_FAR), None);
    assert_eq!(rt; follow(&rt, 2, &GAP), None);
}
