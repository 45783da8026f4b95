//! The bodies that a text declares.
ghost use Rattle.std.specs.Prelude.{◌≡◌, ◌≤◌, ◌<◌, length, option_map, IfOk};
ghost use Rattle.osal_line.specs.Declarations as declarations;
ghost use Rattle.osal_line.specs.Places.{Holds, IsDeclared, IsPut, number_in, places_of};
ghost use Rattle.osal_line.specs.Words.{lines_of, words_of};

use crate::BodyKind;
use crate::words::{next_line, next_word};
use osal_base::OutOfMemory;
use std::alloc::Global;
use std::collections::BTreeMap;

/// For each kind and name that a text declares, the place of the last declaration of such a body among
/// all declarations.
#[derive(Drop)]
pub struct Declarations<'a> {
    tasks: BTreeMap<&'a [u8], u32>,
    handlers: BTreeMap<&'a [u8], u32>,
}

impl<'a> Declarations<'a> {
    /// The declarations of a text.
    pub fn of(alloc: Global, text: &'a [u8]) -> Result<Declarations<'a>, OutOfMemory>
        requires { length text.now ≤ 4294967294 }
        ensures { IfOk result (λ found. Holds found (declarations.declared (lines_of text.now))) }
    {
        let mut found = Declarations {
            tasks: BTreeMap::new(alloc),
            handlers: BTreeMap::new(alloc),
        };
        let mut rest = text;
        let mut count: u32 = 0;
        while let Some((line, after)) = next_line(rest) {
            count = found.declare(count, line)?;
            rest = after;
        }
        Ok(found)
    }

    /// Puts the body that a line declares, if it declares one, at a place.
    fn declare(&mut self, place: u32, line: &'a [u8]) -> Result<u32, OutOfMemory>
        requires { place < 4294967295 }
        ensures { IfOk result (λ next.
            IsDeclared self.old self.new place next (declarations.declared_by (words_of line.now))) }
    {
        match declaration_of(line) {
            Some((kind, name)) => {
                self.put(kind, name, place)?;
                Ok(place + 1)
            }
            None => Ok(place),
        }
    }

    /// Puts a body of that kind and name at a place.
    fn put(&mut self, kind: BodyKind, name: &'a [u8], place: u32) -> Result<(), OutOfMemory>
        ensures { IfOk result (λ _. IsPut self.old self.new (record { kind = kind; name = name.now }) place) }
    {
        match kind {
            BodyKind::Task => self.tasks.insert(name, place)?,
            BodyKind::Handler => self.handlers.insert(name, place)?,
        };
        Ok(())
    }

    /// The number of the body of that kind and name, behind so many bodies that have begun.
    pub fn number(&self, begun: usize, kind: BodyKind, name: &[u8]) -> Option<u32>
        ensures { result ≡ number_in self.now begun kind name.now }
    {
        let place = *self.places(kind).get(name)?;
        if begun <= place as usize {
            Some(place)
        } else {
            None
        }
    }

    fn places(&self, kind: BodyKind) -> &BTreeMap<&'a [u8], u32>
        ensures { result.now ≡ places_of self.now kind }
    {
        match kind {
            BodyKind::Task => &self.tasks,
            BodyKind::Handler => &self.handlers,
        }
    }
}

/// The kind and the name of the body that a line declares.
fn declaration_of(line: &[u8]) -> Option<(BodyKind, &[u8])>
    ensures { option_map (λ found. record { kind = found.0; name = found.1.now }) result
        ≡ declarations.declared_by (words_of line.now) }
{
    let (first, rest) = next_word(line)?;
    let kind = kind_of(first)?;
    let (name, rest) = next_word(rest)?;
    match next_word(rest) {
        Some(_) => None,
        None => Some((kind, name)),
    }
}

/// The kind of body that a word declares.
fn kind_of(word: &[u8]) -> Option<BodyKind>
    ensures { result ≡ declarations.kind_of word.now }
{
    if word == b"task".as_slice() {
        return Some(BodyKind::Task);
    }
    if word == b"handler".as_slice() {
        return Some(BodyKind::Handler);
    }
    None
}
