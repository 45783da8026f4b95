//! The status that each fault is answered with.
ghost use Rattle.std.specs.Prelude.{◌≡◌};
ghost use Rattle.osal_idtable.specs.Faults.{name_status, reserve_status, id_status};

use crate::{IdFault, ReserveFault};
use osal_base::{NameFault, Status};

/// What a call answers to bytes that are no name.
pub fn status_of_name(fault: NameFault) -> Status
    ensures { result ≡ name_status fault }
{
    match fault {
        NameFault::Empty => Status::ErrInvalidArgument,
        NameFault::TooLong => Status::ErrNameTooLong,
        NameFault::HasZero => Status::ErrInvalidArgument,
    }
}

/// What a create answers where no identifier can be had.
pub fn status_of_reserve(fault: ReserveFault) -> Status
    ensures { result ≡ reserve_status fault }
{
    match fault {
        ReserveFault::NameTaken => Status::ErrNameTaken,
        ReserveFault::NoFreeIds => Status::ErrNoFreeIds,
    }
}

/// What a call on an identifier answers where the table refuses it.
pub fn status_of_id(fault: IdFault) -> Status
    ensures { result ≡ id_status fault }
{
    match fault {
        IdFault::InvalidId => Status::ErrInvalidId,
        IdFault::ObjectInUse => Status::ErrObjectInUse,
        IdFault::TooMany => Status::Error,
        IdFault::NotHeld => Status::ErrIncorrectObjState,
    }
}
