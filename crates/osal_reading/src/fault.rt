//! Why a text is no application.
ghost use Rattle.std.specs.Prelude.{◌≡◌};
ghost use Rattle.osal_reading.specs.declared.fault.Stop.TheVariants as stop;
ghost use Rattle.osal_reading.specs.Fault.{kind_text};

use osal_base::OutOfMemory;
use std::alloc::AllocFailed;

/// The rule that a line breaks, in the order in which they are tried.
#[derive(Clone, Copy, Debug, PartialEq, Eq)]
pub enum FaultKind {
    /// The line has more than 255 bytes.
    Long,
    /// A byte is no blank and is not printable.
    Byte,
    /// The first line that counts is not the header.
    Header,
    /// The first word is none that a line begins with.
    Word,
    /// The line may not stand here.
    Place,
    /// The number or the form of the words is wrong.
    Argument,
    /// A limit is passed.
    Many,
    /// The body's name is taken, or a body that is named is not declared later.
    Body,
    /// The text ends without a body, or inside one.
    End,
}

impl FaultKind {
    /// The word that stands for it in a message.
    pub fn text(self) -> &'static str
        ensures { result.now ≡ kind_text self }
    {
        match self {
            FaultKind::Long => "long",
            FaultKind::Byte => "byte",
            FaultKind::Header => "header",
            FaultKind::Word => "word",
            FaultKind::Place => "place",
            FaultKind::Argument => "argument",
            FaultKind::Many => "many",
            FaultKind::Body => "body",
            FaultKind::End => "end",
        }
    }
}

/// The first bad line of a text, counted from 1, and the first rule that it breaks.
#[derive(Clone, Copy, Debug, PartialEq, Eq)]
pub struct AppFault {
    pub line: u32,
    pub kind: FaultKind,
}

/// Why a text was not read.
#[derive(Clone, Copy, Debug, PartialEq, Eq)]
pub enum ParseFault {
    /// It is no application.
    Bad(AppFault),
    /// There was no memory for it.
    OutOfMemory,
}

/// Why a line is not read.
#[derive(Clone, Copy, Debug, PartialEq, Eq)]
pub enum Stop {
    /// It breaks this rule.
    Rule(FaultKind),
    /// There was no memory for it.
    OutOfMemory,
}

impl From<OutOfMemory> for Stop {
    ghost from_gives = { λ _ e. e ≡ stop.OutOfMemory };

    fn from(_: OutOfMemory) -> Stop {
        Stop::OutOfMemory
    }
}

impl<T: Drop> From<AllocFailed<T>> for Stop {
    ghost from_gives = { λ _ e. e ≡ stop.OutOfMemory };

    fn from(_: AllocFailed<T>) -> Stop {
        Stop::OutOfMemory
    }
}
