//! The call lines on the console.
ghost use Rattle.std.specs.Prelude.{◌≡◌, map, IfOk};
ghost use Rattle.osal_line.specs.Consoles as consoles;

use crate::ScriptCall;
use crate::payload::payload_of;
use osal_base::OutOfMemory;
use osal_call::BareWord;
use std::alloc::Global;

/// A call without arguments.
pub fn bare_call_of(word: BareWord, words: &[&[u8]]) -> Option<ScriptCall>
    ensures { result ≡ consoles.bare_call_of word (map (λ word. word.now) words.now) }
{
    if words.is_empty() {
        Some(ScriptCall::Bare { word })
    } else {
        None
    }
}

/// A write: its payload.
pub fn console_write_of(alloc: Global, words: &[&[u8]]) -> Result<Option<ScriptCall>, OutOfMemory>
    ensures { IfOk result (λ made. made ≡ consoles.console_write_of (map (λ word. word.now) words.now)) }
{
    let payload = payload_of(alloc, words)?;
    Ok(payload.map(|payload| ScriptCall::ConsoleWrite { payload }))
}
