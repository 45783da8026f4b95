//! The lines of an application's text.
ghost use Rattle.std.specs.Prelude.{◌≡◌, [], ◌∷◌, map, true};
ghost use Rattle.osal_line.specs.Places.{number_in};
ghost use Rattle.osal_reading.specs.Draft.{begun};
ghost use Rattle.osal_reading.specs.Reading as reading;
ghost use Rattle.osal_reading.specs.Outcome.{Gives};

use crate::FaultKind;
use crate::blocks::{read_body, read_end, read_repeat};
use crate::calls::read_call;
use crate::draft::Draft;
use crate::fault::Stop;
use osal_line::{BodyKind, Declarations, FirstWord, first_word, is_line, words_of};
use std::alloc::Global;

fn is_comment(word: &[u8]) -> bool
    ensures { result ≡ reading.is_comment word.now }
{
    match word.first() {
        Some(byte) => *byte == b'#',
        None => false,
    }
}

fn is_header(words: &[&[u8]]) -> bool
    ensures { result ≡ reading.is_header (map (λ word. word.now) words.now) }
{
    words.len() == 2 && are_header(words[0], words[1])
}

fn are_header(name: &[u8], version: &[u8]) -> bool
    ensures { result ≡ reading.is_header (name.now ∷ version.now ∷ []) }
{
    name == b"osal-app".as_slice() && version == b"1".as_slice()
}

/// A line after the header, by its first word.
fn read_by_word(
    alloc: Global,
    draft: Draft,
    number: u32,
    first: Option<FirstWord>,
    words: &[&[u8]],
    declared: &Declarations,
) -> Result<Draft, Stop>
    ensures { Gives result (reading.read_by_word (number_in declared.now (begun draft))
        draft number first (map (λ word. word.now) words.now)) }
{
    match first {
        None => Err(Stop::Rule(FaultKind::Word)),
        Some(FirstWord::Header) => Err(Stop::Rule(FaultKind::Place)),
        Some(FirstWord::Task) => read_body(alloc, draft, BodyKind::Task, words),
        Some(FirstWord::Handler) => read_body(alloc, draft, BodyKind::Handler, words),
        Some(FirstWord::Repeat) => read_repeat(draft, words),
        Some(FirstWord::End) => read_end(draft, words),
        Some(FirstWord::Call(call)) => read_call(alloc, draft, number, call, words, declared),
    }
}

/// The words of a line.
fn read_words(
    alloc: Global,
    draft: Draft,
    number: u32,
    words: &[&[u8]],
    declared: &Declarations,
) -> Result<Draft, Stop>
    ensures { Gives result (reading.read_words (number_in declared.now (begun draft))
        draft number (map (λ word. word.now) words.now)) }
{
    if words.is_empty() {
        return Ok(draft);
    }
    let first = words[0];
    if is_comment(first) {
        return Ok(draft);
    }
    if draft.header {
        return read_by_word(
            alloc,
            draft,
            number,
            first_word(first),
            &words[1..],
            declared,
        );
    }
    if is_header(words) {
        Ok(with_header(draft))
    } else {
        Err(Stop::Rule(FaultKind::Header))
    }
}

fn with_header(draft: Draft) -> Draft
    ensures { result ≡ record draft { header = true } }
{
    let Draft {
        header: _,
        bodies,
        current,
    } = draft;
    Draft {
        header: true,
        bodies,
        current,
    }
}

/// A line of that number.
pub fn read_line(
    alloc: Global,
    draft: Draft,
    number: u32,
    line: &[u8],
    declared: &Declarations,
) -> Result<Draft, Stop>
    ensures { Gives result (reading.read_line (number_in declared.now (begun draft)) draft number line.now) }
{
    if 255 < line.len() {
        return Err(Stop::Rule(FaultKind::Long));
    }
    if !is_line(line) {
        return Err(Stop::Rule(FaultKind::Byte));
    }
    let words = words_of(alloc, line)?;
    read_words(alloc, draft, number, words.as_slice(), declared)
}
