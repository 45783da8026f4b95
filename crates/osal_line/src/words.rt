//! The lines and words of a text.
ghost use Rattle.std.specs.Prelude.{◌≡◌, ◌≤◌, ◌<◌, List, [], ◌∷◌, ◌++◌, ℕ, length, take, drop, map, slice_index, MatchOption, IfOk, false};
ghost use Rattle.std.specs.List.{list_all};
ghost use Rattle.osal_line.specs.Words as words;
ghost use Rattle.osal_line.specs.Inside.{IsInside, GoesOn};

use osal_base::OutOfMemory;
use std::alloc::Global;

/// Where in a line a byte stands.
#[derive(Clone, Copy, Debug, PartialEq, Eq)]
pub enum WordPhase {
    /// Before a word, or after the last.
    Between,
    /// In a run of bytes that are no blanks.
    Run,
    /// In a quotation, where blanks count.
    Quoted,
    /// Behind a backslash in a quotation.
    Escaped,
}

/// The first line of a text, and what comes after its end; nothing where the text is empty.
pub fn next_line(text: &[u8]) -> Option<(&[u8], &[u8])>
    ensures { MatchOption result (text.now ≡ []) (λ found.
        (words.lines_of text.now ≡ found.0.now ∷ words.lines_of found.1.now) × (length found.1.now < length text.now)) }
{
    if text.is_empty() {
        return None;
    }
    let end = line_length(text);
    if end == text.len() {
        return Some((text, behind(text, end)));
    }
    Some((front(text, end), behind(text, end + 1)))
}

/// The first so many bytes.
fn front(bytes: &[u8], count: usize) -> &[u8]
    requires { count ≤ length bytes.now }
    ensures { result.now ≡ take count bytes.now }
{
    &bytes[..count]
}

/// The bytes behind the first so many.
fn behind(bytes: &[u8], count: usize) -> &[u8]
    requires { count ≤ length bytes.now }
    ensures { result.now ≡ drop count bytes.now }
{
    &bytes[count..]
}

/// Where the first byte 10 stands, or the length.
fn line_length(text: &[u8]) -> usize
    ensures within { result ≤ length text.now }
    ensures before { (k : ℕ) → k < result → slice_index text.now k ≡ 10 → ⊥ }
    ensures end { result < length text.now → slice_index text.now result ≡ 10 }
{
    for (i, byte) in text.iter().enumerate() {
        if *byte == b'\n' {
            return i;
        }
    }
    text.len()
}

fn is_blank(byte: u8) -> bool
    ensures { result ≡ words.is_blank byte }
{
    byte == b' ' || byte == b'\t' || byte == b'\r'
}

/// Whether a line has only bytes that may stand in one.
pub fn is_line(line: &[u8]) -> bool
    ensures { result ≡ list_all words.is_line_byte line.now }
{
    line.iter().all(|byte| is_line_byte(*byte))
}

fn is_line_byte(byte: u8) -> bool
    ensures { result ≡ words.is_line_byte byte }
{
    is_blank(byte) || (33 <= byte && byte <= 126)
}

/// The phase after a byte inside a word, or nothing where the word ends before it.
fn phase_after(phase: WordPhase, byte: u8) -> Option<WordPhase>
    requires { IsInside phase }
    ensures { GoesOn phase byte result }
{
    match phase {
        WordPhase::Between | WordPhase::Run => {
            if is_blank(byte) {
                None
            } else {
                Some(WordPhase::Run)
            }
        }
        WordPhase::Quoted => Some(phase_in_quotes(byte)),
        WordPhase::Escaped => Some(WordPhase::Quoted),
    }
}

fn phase_in_quotes(byte: u8) -> WordPhase
    ensures value { result ≡ words.phase_in_quotes byte }
    ensures inside { IsInside result }
{
    if byte == b'"' {
        return WordPhase::Run;
    }
    if byte == b'\\' {
        return WordPhase::Escaped;
    }
    WordPhase::Quoted
}

fn phase_after_first(byte: u8) -> WordPhase
    ensures value { result ≡ words.phase_after_first byte }
    ensures inside { IsInside result }
{
    if byte == b'"' {
        return WordPhase::Quoted;
    }
    WordPhase::Run
}

/// How many of the bytes belong to the word that has begun.
fn word_rest(phase: WordPhase, bytes: &[u8]) -> usize
    requires { IsInside phase }
    ensures within { result ≤ length bytes.now }
    ensures word { words.words_from phase bytes.now
        ≡ take result bytes.now ∷ words.words_from WordPhase.Between (drop result bytes.now) }
{
    let mut at = phase;
    for (i, byte) in bytes.iter().enumerate() {
        match phase_after(at, *byte) {
            Some(next) => at = next,
            None => return i,
        }
    }
    bytes.len()
}

/// How many blanks a line begins with.
fn word_start(line: &[u8]) -> usize
    ensures within { result ≤ length line.now }
    ensures skipped { words.words_of line.now ≡ words.words_of (drop result line.now) }
    ensures first { result < length line.now → words.is_blank (slice_index line.now result) ≡ false }
{
    for (i, byte) in line.iter().enumerate() {
        if !is_blank(*byte) {
            return i;
        }
    }
    line.len()
}

/// The first word of a line, and what comes after it; nothing where the line has none.
pub fn next_word(line: &[u8]) -> Option<(&[u8], &[u8])>
    ensures { MatchOption result (words.words_of line.now ≡ []) (λ found.
        (words.words_of line.now ≡ found.0.now ∷ words.words_of found.1.now) × (length found.1.now < length line.now)) }
{
    let start = word_start(line);
    if start == line.len() {
        return None;
    }
    let rest = behind(line, start + 1);
    let more = word_rest(phase_after_first(line[start]), rest);
    Some((front(behind(line, start), more + 1), behind(rest, more)))
}

/// The words of a line.
pub fn words_of(alloc: Global, line: &[u8]) -> Result<Vec<&[u8]>, OutOfMemory>
    ensures { IfOk result (λ found. map (λ word. word.now) found.items ≡ words.words_of line.now) }
{
    let mut found = Vec::new(alloc);
    let mut rest = line;
    while let Some((word, after)) = next_word(rest) {
        found.push(word)?;
        rest = after;
    }
    Ok(found)
}
