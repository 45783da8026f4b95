//! Prints applications.
ghost use Rattle.std.specs.Prelude.{◌≡◌, ◌++◌, List, ℕ, Ok, flat_map, map, IfOk, OnOk};
ghost use Rattle.osal_reading.specs.Reading.{reading_of};
ghost use Rattle.osal_print.specs.Words.{call_words};
ghost use Rattle.osal_print.specs.Again.{SpellsAgain};
ghost use Rattle.osal_print.specs.PrintText.{body_lines, body_name, ended_line, item_words, kind_word, line_text, print_text};

use crate::arguments::push_arguments;
use crate::words::push_expectation;
use osal_base::{Bytes, OutOfMemory};
use osal_script::{App, Body, BodyKind, Item, Line};
use osal_spelling::{push_bytes, push_decimal};
use std::alloc::Global;

/// The shortest text of an application: what it says is what `parse` reads, but for the numbers of its lines.
///
/// Each argument, code and value has its shortest spelling (of the same length, a string comes before a fill, and
/// decimal before hexadecimal), one space stands between words, and registers are named by letters and digits.
/// It costs the text and the bytes of its payloads. The only error is that memory ran out.
pub fn print(alloc: Global, app: &App) -> Result<Bytes, OutOfMemory>
    ensures text { IfOk result (λ printed. printed.bytes ≡ print_text app.now) }
    ensures reads { (read : List ℕ) → reading_of read ≡ Ok app.now → IfOk result (λ printed. SpellsAgain printed.bytes app.now) }
{
    let mut out = Vec::new(alloc);
    push_bytes(&mut out, b"osal-app 1\n")?;
    for number in 0..app.bodies() {
        push_body(&mut out, app, app.body(number))?;
    }
    Ok(Bytes::from_vec(out))
}

/// Appends the lines of a body.
fn push_body(out: &mut Vec<u8>, app: &App, body: &Body) -> Result<(), OutOfMemory>
    ensures { OnOk result (out.new.items
        ≡ out.old.items ++ flat_map ended_line (body_lines (body_name app.now) body.now)) }
{
    push_bytes(out, kind_text(body.kind()))?;
    push_bytes(out, b" ")?;
    push_bytes(out, body.name().as_slice())?;
    push_bytes(out, b"\n")?;
    push_items(out, app, body.items())?;
    push_bytes(out, b"end\n")
}

/// The word with which a body begins.
fn kind_text(kind: BodyKind) -> &'static [u8]
    ensures { result.now ≡ kind_word kind }
{
    match kind {
        BodyKind::Task => b"task",
        BodyKind::Handler => b"handler",
    }
}

fn push_items(out: &mut Vec<u8>, app: &App, items: &[Item]) -> Result<(), OutOfMemory>
    ensures { OnOk result (out.new.items
        ≡ out.old.items ++ flat_map ended_line (map (item_words (body_name app.now)) items.now)) }
{
    for item in items {
        push_item(out, app, item)?;
    }
    Ok(())
}

/// Appends the line of an item.
fn push_item(out: &mut Vec<u8>, app: &App, item: &Item) -> Result<(), OutOfMemory>
    ensures { OnOk result (out.new.items
        ≡ out.old.items ++ ended_line (item_words (body_name app.now) item.now)) }
{
    match item {
        Item::Call(line) => push_call(out, app, line)?,
        Item::Repeat { count } => {
            push_bytes(out, b"repeat ")?;
            push_decimal(out, u64::from(*count))?;
        }
        Item::End => push_bytes(out, b"end")?,
    }
    push_bytes(out, b"\n")
}

/// Appends a call line, without its end.
fn push_call(out: &mut Vec<u8>, app: &App, line: &Line) -> Result<(), OutOfMemory>
    ensures { OnOk result (out.new.items
        ≡ out.old.items ++ line_text (call_words (body_name app.now) line.now)) }
{
    push_bytes(out, line.call.name())?;
    push_arguments(out, app, &line.call)?;
    push_expectation(out, &line.expect)
}
