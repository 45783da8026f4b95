//! Identifiers: the type of an object and its serial, as `osapi-idmap.h` lays them out.
ghost use Rattle.std.specs.Prelude.{◌≡◌, ◌≢◌, ◌<◌, ◌%◌, IfSome, IfNone, IsTrue, ◌↔◌};
ghost use Rattle.osal_base.specs.declared.id.ObjType.{ObjType};
ghost use Rattle.osal_base.specs.Identifier.{type_number, compose, serial_of, type_of, slot_of};

use std::marker::Model;

/// The kinds of objects that an identifier names.
#[derive(Clone, Copy, Debug, PartialEq, Eq)]
pub enum ObjType {
    Task,
    Queue,
    CountSem,
    BinSem,
    Mutex,
    Stream,
    Directory,
    Timebase,
    Timer,
    /// Loadable modules have a number and no table.
    Module,
    FileSystem,
    Console,
    Condvar,
}

impl ObjType {
    /// The number that stands in the upper half of an identifier.
    pub fn number(self) -> u32
        ensures value { result ≡ type_number self }
        ensures small { result < 14 }
    {
        match self {
            ObjType::Task => 1,
            ObjType::Queue => 2,
            ObjType::CountSem => 3,
            ObjType::BinSem => 4,
            ObjType::Mutex => 5,
            ObjType::Stream => 6,
            ObjType::Directory => 7,
            ObjType::Timebase => 8,
            ObjType::Timer => 9,
            ObjType::Module => 10,
            ObjType::FileSystem => 11,
            ObjType::Console => 12,
            ObjType::Condvar => 13,
        }
    }

    /// The type with that number, if there is one.
    pub fn of(number: u32) -> Option<ObjType>
        ensures found { IfSome result (λ kind. type_number kind ≡ number) }
        ensures none { IfNone result ((kind : ObjType) → type_number kind ≢ number) }
    {
        Some(match number {
            1 => ObjType::Task,
            2 => ObjType::Queue,
            3 => ObjType::CountSem,
            4 => ObjType::BinSem,
            5 => ObjType::Mutex,
            6 => ObjType::Stream,
            7 => ObjType::Directory,
            8 => ObjType::Timebase,
            9 => ObjType::Timer,
            10 => ObjType::Module,
            11 => ObjType::FileSystem,
            12 => ObjType::Console,
            13 => ObjType::Condvar,
            _ => return None,
        })
    }
}

/// An identifier of an object, which goes stale when the object is deleted (`osal_id_t`).
#[derive(Clone, Copy, Debug, PartialEq, Eq)]
pub struct OsalId {
    raw: u32,
}

impl Model for OsalId {
    ghost use Rattle.std.specs.Prelude.{ℕ};

    ghost Value = { ℕ };

    ghost view = { λ a. a.raw };

    ghost invariant = { λ a. Unit {0} };

    ghost inverse = { λ n. record { raw = n } };
}

impl OsalId {
    /// The number 0, which names no object (`OS_OBJECT_ID_UNDEFINED`).
    pub const UNDEFINED: OsalId = OsalId { raw: 0 };

    /// The identifier of a type and a serial.
    pub fn compose(kind: ObjType, serial: u16) -> OsalId
        ensures { result ≡ compose (type_number kind) serial }
    {
        OsalId {
            raw: kind.number() * 65536 + u32::from(serial),
        }
    }

    /// The identifier that a number stands for.
    pub fn of_raw(raw: u32) -> OsalId
        ensures { result ≡ raw }
    {
        OsalId { raw }
    }

    /// The number that the identifier is.
    pub fn raw(self) -> u32
        ensures { result ≡ self }
    {
        self.raw
    }

    /// The upper half: the type of the object, if the number names one.
    pub fn obj_type(self) -> Option<ObjType>
        ensures found { IfSome result (λ kind. type_number kind ≡ type_of self) }
        ensures none { IfNone result ((kind : ObjType) → type_number kind ≢ type_of self) }
    {
        ObjType::of(self.raw / 65536)
    }

    /// The lower half: which issue of the type's table it is.
    pub fn serial(self) -> u16
        ensures { result ≡ serial_of self }
    {
        (self.raw % 65536) as u16
    }

    /// The slot of a table with that capacity.
    pub fn index(self, capacity: u32) -> u32
        requires { 0 < capacity }
        ensures value { result ≡ slot_of self capacity }
        ensures within { result < capacity }
    {
        u32::from(self.serial()) % capacity
    }
}
