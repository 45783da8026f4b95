//! Statuses, names, identifiers and bytes.
use osal_base::{Bytes, Name, NameFault, ObjType, OsalId, Room, Status};
use std::test::Fail;

/// Whether this number is the one of the status of that name.
fn names_its_status(number: i32, name: &str) -> bool {
    match Status::of(number) {
        Some(status) => status.number() == number && status.name() == name,
        None => false,
    }
}

/// Numbers, and the names of their statuses.
const SEMAPHORES_AND_QUEUES: [(i32, &str); 10] = [
    (0, "OS_SUCCESS"),
    (-1, "OS_ERROR"),
    (-2, "OS_INVALID_POINTER"),
    (-4, "OS_ERROR_TIMEOUT"),
    (-6, "OS_SEM_FAILURE"),
    (-7, "OS_SEM_TIMEOUT"),
    (-8, "OS_QUEUE_EMPTY"),
    (-9, "OS_QUEUE_FULL"),
    (-10, "OS_QUEUE_TIMEOUT"),
    (-11, "OS_QUEUE_INVALID_SIZE"),
];

#[test]
fn the_numbers_of_semaphores_and_queues_name_their_statuses(rt: HostRuntime) {
    for (number, name) in SEMAPHORES_AND_QUEUES {
        assert!(rt; names_its_status(number, name), "at {number}");
    }
}

/// The same for names and values.
const NAMES_AND_VALUES: [(i32, &str); 8] = [
    (-13, "OS_ERR_NAME_TOO_LONG"),
    (-14, "OS_ERR_NO_FREE_IDS"),
    (-15, "OS_ERR_NAME_TAKEN"),
    (-16, "OS_ERR_INVALID_ID"),
    (-17, "OS_ERR_NAME_NOT_FOUND"),
    (-19, "OS_ERR_INVALID_PRIORITY"),
    (-20, "OS_INVALID_SEM_VALUE"),
    (-29, "OS_TIMER_ERR_INVALID_ARGS"),
];

#[test]
fn the_numbers_of_names_and_values_name_their_statuses(rt: HostRuntime) {
    for (number, name) in NAMES_AND_VALUES {
        assert!(rt; names_its_status(number, name), "at {number}");
    }
}

/// The same for objects and paths.
const OBJECTS_AND_PATHS: [(i32, &str); 10] = [
    (-33, "OS_ERR_OBJECT_IN_USE"),
    (-35, "OS_ERR_INCORRECT_OBJ_STATE"),
    (-36, "OS_ERR_INCORRECT_OBJ_TYPE"),
    (-37, "OS_ERR_STREAM_DISCONNECTED"),
    (-40, "OS_ERR_INVALID_SIZE"),
    (-42, "OS_ERR_INVALID_ARGUMENT"),
    (-103, "OS_FS_ERR_PATH_TOO_LONG"),
    (-104, "OS_FS_ERR_NAME_TOO_LONG"),
    (-107, "OS_FS_ERR_DEVICE_NOT_FREE"),
    (-108, "OS_FS_ERR_PATH_INVALID"),
];

#[test]
fn the_numbers_of_objects_and_paths_name_their_statuses(rt: HostRuntime) {
    for (number, name) in OBJECTS_AND_PATHS {
        assert!(rt; names_its_status(number, name), "at {number}");
    }
}

#[test]
fn a_number_that_is_not_listed_names_none(rt: HostRuntime) {
    for number in [-3, 1, -5] {
        assert!(rt; Status::of(number).is_none(), "at {number}");
    }
}

/// Whether a name of these bytes is refused for that reason, or for none.
fn is_refused_for(bytes: &[u8], fault: Option<NameFault>) -> bool {
    Name::new(bytes).err() == fault
}

/// Names, and why they are refused.
const REFUSED: [(&[u8], Option<NameFault>); 7] = [
    (b"", Some(NameFault::Empty)),
    (b"a", None),
    (b"nineteen-bytes-long", None),
    (b"a-name-of-20-bytes--", Some(NameFault::TooLong)),
    (b"a\0b", Some(NameFault::HasZero)),
    (b"\0", Some(NameFault::HasZero)),
    (b"a-name-of-20-bytes-\0", Some(NameFault::TooLong)),
];

#[test]
fn the_first_reason_refuses_a_name(rt: HostRuntime) {
    for (row, (bytes, fault)) in REFUSED.iter().enumerate() {
        assert!(rt; is_refused_for(*bytes, *fault), "row {row}");
    }
}

/// Whether an identifier is of no type.
fn has_no_type(raw: u32) -> bool {
    OsalId::of_raw(raw).obj_type().is_none()
}

/// Whether an identifier that is composed has these parts.
fn is_composed(id: OsalId) -> bool {
    id.raw() == 0x0004_0029
        && id.serial() == 41
        && id.index(20) == 1
        && id.obj_type() == Some(ObjType::BinSem)
}

#[test]
fn an_identifier_is_its_type_and_serial(rt: HostRuntime) {
    assert!(rt; is_composed(OsalId::compose(ObjType::BinSem, 41)));
    for raw in [0, 0x0000_FFFF, 0x000E_0001] {
        assert!(rt; has_no_type(raw), "at {raw}");
    }
}

#[test]
fn bytes_fill_the_room_that_they_took(rt: HostRuntime) -> Result<(), Fail> {
    let mut bytes = Bytes::with_room(rt.alloc(), 5)?;
    bytes.append(b"ab");
    assert!(rt; bytes.as_slice() == b"ab".as_slice());
    Ok(())
}

#[test]
fn the_room_of_a_reply_has_1024_bytes(rt: HostRuntime) {
    let mut room = Room::new();
    room.append(&[7; 1000]);
    room.append(&[8; 24]);
    assert!(rt; room.as_slice().len() == 1024);
    assert!(rt; room.as_slice().last() == Some(&8));
}
