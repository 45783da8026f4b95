//! What a line expects of its answer.
ghost use Rattle.std.specs.Prelude.{◌≡◌, ◌≤◌, ◌^◌, List, [], ◌∷◌, ℕ, length, map, take, drop, IfOk};
ghost use Rattle.osal_line.specs.Values.{number_below};
ghost use Rattle.osal_line.specs.Expectation as expectation;

use crate::Literal;
use crate::strings::string_of;
use crate::values::{code_of, number_within};
use osal_base::OutOfMemory;
use std::alloc::Global;

/// The value that a line expects beside its code.
#[derive(Drop)]
pub enum Value {
    /// Compared with the reply's number.
    Number(u64),
    /// Compared with the reply's bytes.
    Text(Literal),
}

/// What a line expects of its answer.
#[derive(Drop)]
pub struct Expect {
    pub code: i32,
    pub value: Option<Value>,
}

/// Where the arrow stands among the words, or how many words there are.
pub fn arrow_place(words: &[&[u8]]) -> usize
    ensures within { result ≤ length words.now }
    ensures before { expectation.before_arrow (map (λ word. word.now) words.now) ≡ map (λ word. word.now) (take result words.now) }
    ensures from { expectation.from_arrow (map (λ word. word.now) words.now) ≡ map (λ word. word.now) (drop result words.now) }
{
    for (i, word) in words.iter().enumerate() {
        if is_arrow(word) {
            return i;
        }
    }
    words.len()
}

fn is_arrow(word: &[u8]) -> bool
    ensures { result ≡ expectation.is_arrow word.now }
{
    word == b"->".as_slice()
}

/// What a line expects of its answer, by the arrow and the words behind it.
pub fn expectation_of(alloc: Global, words: &[&[u8]]) -> Result<Option<Option<Expect>>, OutOfMemory>
    ensures { IfOk result (λ expect. expect ≡ expectation.expectation_of (map (λ word. word.now) words.now)) }
{
    if words.is_empty() {
        return Ok(Some(None));
    }
    if words.len() == 2 {
        return Ok(expected_code(words[1]));
    }
    if words.len() == 3 {
        return expected(alloc, words[1], words[2]);
    }
    Ok(None)
}

fn expected_code(code: &[u8]) -> Option<Option<Expect>>
    ensures { (arrow : List ℕ) → result ≡ expectation.expectation_of (arrow ∷ code.now ∷ []) }
{
    let code = code_of(code)?;
    Some(Some(Expect { code, value: None }))
}

fn expected(
    alloc: Global,
    code: &[u8],
    wanted: &[u8],
) -> Result<Option<Option<Expect>>, OutOfMemory>
    ensures { IfOk result (λ expect.
        (arrow : List ℕ) → expect ≡ expectation.expectation_of (arrow ∷ code.now ∷ wanted.now ∷ [])) }
{
    let Some(code) = code_of(code) else {
        return Ok(None);
    };
    let Some(found) = value_of(alloc, wanted)? else {
        return Ok(None);
    };
    Ok(Some(Some(Expect {
        code,
        value: Some(found),
    })))
}

/// A value that is expected: a number of 64 bits, or a string.
fn value_of(alloc: Global, word: &[u8]) -> Result<Option<Value>, OutOfMemory>
    ensures { IfOk result (λ found. found ≡ expectation.value_by word.now (number_below (2 ^ 64) word.now)) }
{
    if let Some(number) = number_within(18446744073709551615, word) {
        return Ok(Some(Value::Number(number)));
    }
    match string_of(alloc, word)? {
        Some(text) => Ok(Some(Value::Text(text))),
        None => Ok(None),
    }
}
