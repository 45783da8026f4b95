//! The call lines of a body.
ghost use Rattle.std.specs.Prelude.{◌≡◌, ◌<◌, ◌+◌, ◌++◌, ◌&&◌, ◌||◌, [], ◌∷◌, map, nat_le, option_map, Some, IfOk};
ghost use Rattle.osal_line.specs.Places.{number_in};
ghost use Rattle.osal_price.specs.Handlers as handlers;
ghost use Rattle.osal_script.specs.declared.item.Item.TheVariants as item;
ghost use Rattle.osal_reading.specs.Draft.{begun};
ghost use Rattle.osal_reading.specs.Reading as reading;
ghost use Rattle.osal_reading.specs.Outcome.{Gives};

use crate::FaultKind;
use crate::draft::{Draft, DraftBody};
use crate::fault::Stop;
use osal_base::OutOfMemory;
use osal_call::CallWord;
use osal_line::{
    BodyKind, Declarations, Expect, Line, ScriptCall, arrow_place, call_of_words, expectation_of,
};
use osal_price::{is_handler, may_wait, needs_task};
use osal_script::Item;
use std::alloc::Global;

/// What a call line makes of its body, behind so many bodies that have begun.
fn body_after(
    alloc: Global,
    body: DraftBody,
    number: u32,
    call: CallWord,
    words: &[&[u8]],
    declared: &Declarations,
    begun: usize,
) -> Result<DraftBody, Stop>
    ensures { Gives result (reading.body_after (number_in declared.now begun) body number call (map (λ word. word.now) words.now)) }
{
    let DraftBody {
        name,
        kind,
        items,
        count,
        repeats,
        mut registers,
    } = body;
    let arrow = arrow_place(words);
    let made = call_of_words(
        alloc,
        call,
        &words[..arrow],
        declared,
        begun,
        &mut registers,
    )?;
    let expect = expectation_of(alloc, &words[arrow..])?;
    let body = DraftBody {
        name,
        kind,
        items,
        count,
        repeats,
        registers,
    };
    join_line(body, number, made, expect)
}

/// The body with a call line whose words are right, where it may stand there.
fn join_line(
    body: DraftBody,
    number: u32,
    call: Option<ScriptCall>,
    expect: Option<Option<Expect>>,
) -> Result<DraftBody, Stop>
    ensures { Gives result (reading.join_line body number (option_map (λ made. (made, body.registers)) call) expect) }
{
    match (call, expect) {
        (Some(call), Some(expect)) => join_made(
            body,
            Line {
                number,
                call,
                expect,
            },
        ),
        _ => Err(Stop::Rule(FaultKind::Argument)),
    }
}

/// The body with a line, where it may stand there.
fn join_made(body: DraftBody, line: Line) -> Result<DraftBody, Stop>
    ensures { Gives result (reading.join_line body line.number (Some (line.call, body.registers)) (Some line.expect)) }
{
    match fault_of(&body, &line.call) {
        Some(kind) => Err(Stop::Rule(kind)),
        None => Ok(with_line(body, line)?),
    }
}

/// The rule that a call breaks in its body, if it breaks one.
fn fault_of(body: &DraftBody, call: &ScriptCall) -> Option<FaultKind>
    ensures { result ≡ reading.fault_of_call body.now (call.now, body.now.registers) }
{
    if waits_in_handler(body.kind, call) {
        Some(FaultKind::Argument)
    } else if is_too_many(body) {
        Some(FaultKind::Many)
    } else if body.registers.is_undeclared() {
        Some(FaultKind::Body)
    } else {
        None
    }
}

/// Whether a call may wait in a body that may not.
fn waits_in_handler(kind: BodyKind, call: &ScriptCall) -> bool
    ensures { result ≡ (handlers.is_handler kind && handlers.may_wait call.now) }
{
    is_handler(kind) && may_wait(call)
}

/// Whether a line is too many for its body, or its registers are.
fn is_too_many(body: &DraftBody) -> bool
    ensures { result ≡ (body.now.registers.over || nat_le 4096 body.now.count) }
{
    body.registers.is_over() || 4096 <= body.count
}

/// The body with one more call line.
fn with_line(body: DraftBody, line: Line) -> Result<DraftBody, OutOfMemory>
    requires { body.count < 4096 }
    ensures { IfOk result (λ after.
        after ≡ record body { items = body.items ++ item.Call line ∷ []; count = body.count + 1 }) }
{
    let DraftBody {
        name,
        kind,
        mut items,
        count,
        repeats,
        registers,
    } = body;
    items.push(Item::Call(line))?;
    Ok(DraftBody {
        name,
        kind,
        items,
        count: count + 1,
        repeats,
        registers,
    })
}

/// A call line.
pub fn read_call(
    alloc: Global,
    draft: Draft,
    number: u32,
    call: CallWord,
    words: &[&[u8]],
    declared: &Declarations,
) -> Result<Draft, Stop>
    ensures { Gives result (reading.read_call (number_in declared.now (begun draft))
        draft draft.open_body number call (map (λ word. word.now) words.now)) }
{
    let Draft {
        header,
        bodies,
        current,
    } = draft;
    let Some(body) = current else {
        return Err(Stop::Rule(FaultKind::Place));
    };
    if is_handler(body.kind) && needs_task(call) {
        return Err(Stop::Rule(FaultKind::Place));
    }
    let begun = bodies.len() + 1;
    let body = body_after(alloc, body, number, call, words, declared, begun)?;
    Ok(Draft {
        header,
        bodies,
        current: Some(body),
    })
}
