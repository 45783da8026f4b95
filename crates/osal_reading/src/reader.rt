//! The reader of an application's text.
ghost use Rattle.std.specs.Prelude.{◌≡◌, ◌≤◌, length, Ok};
ghost use Rattle.osal_script.specs.App.{Application};
ghost use Rattle.osal_reading.specs.Reading as reading;
ghost use Rattle.osal_reading.specs.Outcome.{ParsesAs, RefusesAt, IsSound};

use crate::draft::Draft;
use crate::fault::Stop;
use crate::reading::read_line;
use crate::{AppFault, FaultKind, ParseFault};
use osal_line::{Declarations, next_line};
use osal_script::App;
use std::alloc::Global;

/// The end of the text, whose line would have that number.
fn read_finish(draft: Draft, number: u32) -> Result<App, ParseFault>
    requires { (app : Application) → reading.read_finish draft number ≡ Ok app → IsSound app }
    ensures { ParsesAs result (reading.read_finish draft number) }
{
    let Draft {
        header,
        bodies,
        current,
    } = draft;
    if !header {
        return Err(ParseFault::Bad(AppFault {
            line: number,
            kind: FaultKind::Header,
        }));
    }
    if current.is_some() || bodies.is_empty() {
        return Err(ParseFault::Bad(AppFault {
            line: number,
            kind: FaultKind::End,
        }));
    }
    Ok(App::new(bodies))
}

fn fault_at(number: u32, stop: Stop) -> ParseFault
    ensures { RefusesAt result number stop }
{
    match stop {
        Stop::Rule(kind) => ParseFault::Bad(AppFault { line: number, kind }),
        Stop::OutOfMemory => ParseFault::OutOfMemory,
    }
}

/// Reads the text of an application.
///
/// A fault names the first line that breaks a rule and the first rule that it breaks. Want of
/// memory may come at any line. It takes time in proportion to the text, times a logarithm of how
/// many bodies it declares, and memory for the application, its declarations and the words of one
/// line.
pub fn parse(alloc: Global, bytes: &[u8]) -> Result<App, ParseFault>
    requires { length bytes.now ≤ 4294967294 }
    ensures { ParsesAs result (reading.reading_of bytes.now) }
{
    let Ok(declared) = Declarations::of(alloc, bytes) else {
        return Err(ParseFault::OutOfMemory);
    };
    let mut draft = Draft::new(alloc);
    let mut rest = bytes;
    let mut number: u32 = 1;
    while let Some((line, after)) = next_line(rest) {
        match read_line(alloc, draft, number, line, &declared) {
            Ok(read) => draft = read,
            Err(stop) => return Err(fault_at(number, stop)),
        }
        rest = after;
        number += 1;
    }
    read_finish(draft, number)
}
