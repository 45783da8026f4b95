//! The words with which a line may begin.
ghost use Rattle.std.specs.Prelude.{◌≡◌};
ghost use Rattle.osal_line.specs.Vocabulary as vocabulary;

use crate::grammar::FirstWord;
use osal_call::call_word;

/// What a line's first word says that the line is.
pub fn first_word(text: &[u8]) -> Option<FirstWord>
    ensures { result ≡ vocabulary.first_word text.now }
{
    if text == b"osal-app".as_slice() {
        return Some(FirstWord::Header);
    }
    if text == b"task".as_slice() {
        return Some(FirstWord::Task);
    }
    if text == b"handler".as_slice() {
        return Some(FirstWord::Handler);
    }
    if text == b"repeat".as_slice() {
        return Some(FirstWord::Repeat);
    }
    if text == b"end".as_slice() {
        return Some(FirstWord::End);
    }
    call_word(text).map(FirstWord::Call)
}
