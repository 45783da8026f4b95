//! What the lines of a body name: its registers, and the bodies of tasks and handlers.
ghost use Rattle.std.specs.Prelude.{◌≡◌, ◌<◌, length, option_map, IfOk, IfSome};
ghost use Rattle.osal_line.specs.Places.{number_in};
ghost use Rattle.osal_line.specs.Registers as registers;

use crate::declarations::Declarations;
use crate::values::{is_body_name, register_name};
use crate::{BodyKind, Register};
use osal_base::{Name, OutOfMemory};
use std::alloc::Global;
use std::marker::Model;

/// The registers that a body has named so far, in the order of their first mention, and whether a
/// line named one too many, or a body that no later line declares.
#[derive(Drop)]
pub struct Registers {
    names: Vec<Name>,
    over: bool,
    undeclared: bool,
}

impl Model for Registers {
    ghost use Rattle.std.specs.Prelude.{◌≤◌, length};
    ghost use Rattle.osal_line.specs.Registers as registers;

    ghost Value = { registers.Registers };

    ghost view = { λ a. record { names = a.names.items; over = a.over; undeclared = a.undeclared } };

    ghost invariant = { λ a. length a.names.items ≤ 32 };
}

impl Registers {
    /// No registers.
    pub fn new(alloc: Global) -> Registers
        ensures { result ≡ registers.no_registers }
    {
        Registers {
            names: Vec::new(alloc),
            over: false,
            undeclared: false,
        }
    }

    /// Whether one register was too many.
    pub fn is_over(&self) -> bool
        ensures { result ≡ self.now.over }
    {
        self.over
    }

    /// Whether a body was named that no later line declares.
    pub fn is_undeclared(&self) -> bool
        ensures { result ≡ self.now.undeclared }
    {
        self.undeclared
    }

    /// The number of a register, which is a new one where the name is new.
    fn number(&mut self, name: Name) -> Result<Register, OutOfMemory>
        ensures { IfOk result (λ register. registers.register_number self.old name ≡ (register, self.new)) }
    {
        if let Some(place) = place_of(self.names.as_slice(), name.as_slice()) {
            return Ok(Register::new(place as u32));
        }
        let count = self.names.len();
        if 32 <= count {
            self.over = true;
            return Ok(Register::new(0));
        }
        self.names.push(name)?;
        Ok(Register::new(count as u32))
    }

    /// The register that a word names.
    pub fn register_at(&mut self, word: &[u8]) -> Result<Option<Register>, OutOfMemory>
        ensures { IfOk result (λ found.
            registers.register_at self.old word.now ≡ option_map (λ register. (register, self.new)) found) }
    {
        let Some(name) = register_name(word) else {
            return Ok(None);
        };
        match Name::new(name) {
            Ok(name) => Ok(Some(self.number(name)?)),
            Err(_) => Ok(None),
        }
    }

    /// The number of the body of that kind that a word names, behind so many bodies that have begun.
    pub fn body_at(
        &mut self,
        declared: &Declarations,
        begun: usize,
        kind: BodyKind,
        word: &[u8],
    ) -> Option<u32>
        ensures { registers.body_at (number_in declared.now begun kind) self.old word.now
            ≡ option_map (λ body. (body, self.new)) result }
    {
        if !is_body_name(word) {
            return None;
        }
        match declared.number(begun, kind, word) {
            Some(number) => Some(number),
            None => {
                self.undeclared = true;
                Some(0)
            }
        }
    }
}

/// Where a name stands among others.
fn place_of(names: &[Name], name: &[u8]) -> Option<usize>
    ensures value { result ≡ registers.place_from 0 names.now name.now }
    ensures within { IfSome result (λ place. place < length names.now) }
{
    for (i, other) in names.iter().enumerate() {
        if other.as_slice() == name {
            return Some(i);
        }
    }
    None
}
