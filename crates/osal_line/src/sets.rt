//! The sets of registers that a word names.
ghost use Rattle.std.specs.Prelude.{◌≡◌, ◌≤◌, ◌<◌, [], ◌∷◌, length, option_map, IfOk, IfSome};
ghost use Rattle.std.specs.Option.{option_map_or};
ghost use Rattle.std.specs.List.{position};
ghost use Rattle.osal_line.specs.Sets as sets;

use crate::Register;
use crate::registers::Registers;
use osal_base::OutOfMemory;
use std::alloc::Global;
use std::marker::Model;

/// The most registers of a set.
const SET_LIMIT: usize = 64;

/// The registers that a set of a line names, in the order in which they stand there; one may stand there
/// more than once.
#[derive(Drop)]
pub struct RegisterSet {
    registers: Vec<Register>,
}

impl Model for RegisterSet {
    ghost use Rattle.std.specs.Prelude.{◌≤◌, List, ℕ, length};

    ghost Value = { List ℕ };

    ghost view = { λ a. a.registers.items };

    ghost invariant = { λ a. length a.registers.items ≤ 64 };
}

impl RegisterSet {
    /// The set of these registers.
    pub fn new(registers: Vec<Register>) -> RegisterSet
        requires { length registers.items ≤ 64 }
        ensures { result ≡ registers.items }
    {
        RegisterSet { registers }
    }

    /// Its registers: at most 64.
    pub fn as_slice(&self) -> &[Register]
        ensures value { result.now ≡ self.now }
        ensures few { length self.now ≤ 64 }
    {
        self.registers.as_slice()
    }
}

/// The set of registers that a word names: `-` for none, or 1 to 64 of them with a comma between each two.
pub fn set_at(
    alloc: Global,
    word: &[u8],
    registers: &mut Registers,
) -> Result<Option<RegisterSet>, OutOfMemory>
    ensures { IfOk result (λ found.
        sets.set_at registers.old word.now ≡ option_map (λ set. (set, registers.new)) found) }
{
    if word == b"-".as_slice() {
        return Ok(Some(RegisterSet::new(Vec::new(alloc))));
    }
    listed(alloc, word, registers)
}

/// The registers of a list.
fn listed(
    alloc: Global,
    word: &[u8],
    registers: &mut Registers,
) -> Result<Option<RegisterSet>, OutOfMemory>
    ensures { IfOk result (λ found.
        sets.more_of [] registers.old (sets.parts_of word.now) ≡ option_map (λ set. (set, registers.new)) found) }
{
    let mut set = Vec::new(alloc);
    let mut rest = Some(word);
    while let Some(text) = rest {
        let (part, after) = cut(text);
        if SET_LIMIT <= set.len() {
            return Ok(None);
        }
        let Some(register) = registers.register_at(part)? else {
            return Ok(None);
        };
        set.push(register)?;
        rest = after;
    }
    Ok(Some(RegisterSet::new(set)))
}

/// What stands before the first comma, and behind it where there is one.
fn cut(word: &[u8]) -> (&[u8], Option<&[u8]>)
    ensures parts { sets.parts_of word.now ≡ result.0.now ∷ option_map_or (λ rest. sets.parts_of rest.now) result.1 [] }
    ensures shorter { IfSome result.1 (λ rest. length rest.now < length word.now) }
{
    match first_comma(word) {
        Some(at) => (&word[..at], Some(&word[at + 1..])),
        None => (word, None),
    }
}

fn first_comma(word: &[u8]) -> Option<usize>
    ensures { result ≡ position sets.is_comma word.now }
{
    word.iter().position(|byte| *byte == b',')
}
