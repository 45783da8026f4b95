//! What the words of a command line ask for.
ghost use Rattle.std.specs.Prelude.{◌≡◌, Some, map, option_map, string_bytes, option_copied};
ghost use Rattle.osal_run.specs.Request as request;
ghost use Rattle.osal_run.specs.Asked.{asked};

use itoa::Buffer;
use osal_make::WORKER_LIMIT;

/// How a word begins that has a number of workers in it.
const MAKE: &[u8] = b"--make=";

/// What the words ask for.
#[derive(Clone, Copy)]
pub(crate) enum Request<'a> {
    /// To run the file of that name.
    File {
        name: &'a str,
        /// Whether the journal's text is written behind the report.
        journal: bool,
    },
    /// To run the application that is made for so many workers.
    Make {
        workers: u32,
    },
}

impl<'a> Request<'a> {
    /// Whether the journal's text is written behind the report.
    pub(crate) fn shows_journal(self) -> bool
        ensures { result ≡ request.asks_journal (Some (asked self.entry)) }
    {
        match self {
            Request::File { journal, .. } => journal,
            Request::Make { .. } => false,
        }
    }
}

/// The number of workers that a word spells.
fn worker_count(word: &[u8]) -> Option<u32>
    ensures { result ≡ request.worker_count word.now }
{
    let mut digits = Buffer::new();
    for count in 1..WORKER_LIMIT + 1 {
        if word == digits.format(count).as_bytes() {
            return Some(count);
        }
    }
    None
}

/// The file that a word names.
fn file_name(word: &str) -> Option<&str>
    ensures { option_copied result ≡ request.file_name word.now }
{
    match word.as_bytes() {
        [] | [b'-', ..] => None,
        _ => Some(word),
    }
}

/// To run the file that a word names.
fn file_request(word: &str, journal: bool) -> Option<Request<'_>>
    ensures { option_map asked result ≡ option_map (λ name. request.File name journal) (request.file_name word.now) }
{
    let name = file_name(word)?;
    Some(Request::File { name, journal })
}

/// To run the application that is made for the number of workers that a word spells.
fn make_request<'a>(word: &[u8]) -> Option<Request<'a>>
    ensures { option_map asked result ≡ option_map (λ count. request.Make count) (request.worker_count word.now) }
{
    let workers = worker_count(word)?;
    Some(Request::Make { workers })
}

/// What one word asks for.
fn one_word(word: &str) -> Option<Request<'_>>
    ensures { option_map asked result ≡ request.one_word word.now }
{
    match word.as_bytes().strip_prefix(MAKE) {
        Some(count) => make_request(count),
        None => file_request(word, false),
    }
}

/// What two words ask for.
fn two_words<'a>(first: &'a str, second: &'a str) -> Option<Request<'a>>
    ensures { option_map asked result ≡ request.two_words first.now second.now }
{
    if first == "--journal" {
        return file_request(second, true);
    }
    if second == "--journal" {
        return file_request(first, true);
    }
    if first == "--make" {
        return make_request(second.as_bytes());
    }
    None
}

/// What the words ask for; other words than these ask for nothing.
#[tactic(auto, using(crate::proofs::Workers::more_words))]
pub(crate) fn request_of(words: &[String]) -> Option<Request<'_>>
    ensures { option_map asked result ≡ request.request_of (map string_bytes words.now) }
{
    match words {
        [] => None,
        [word] => one_word(word.as_str()),
        [first, second] => two_words(first.as_str(), second.as_str()),
        [_, _, _, ..] => None,
    }
}
