//! The lines that begin and end bodies and repeats.
ghost use Rattle.std.specs.Prelude.{◌≡◌, ◌<◌, [], ◌∷◌, map, IfOk};
ghost use Rattle.osal_reading.specs.Blocks as blocks;
ghost use Rattle.osal_reading.specs.Outcome.{Gives};

use crate::FaultKind;
use crate::draft::{Draft, DraftBody};
use crate::fault::Stop;
use osal_base::{Name, OutOfMemory};
use osal_line::{BodyKind, Registers, is_body_name, number_of};
use osal_price::is_handler;
use osal_script::{Body, Item};
use std::alloc::Global;

/// A line `task` or `handler`, which begins a body of that kind.
pub fn read_body(
    alloc: Global,
    draft: Draft,
    kind: BodyKind,
    words: &[&[u8]],
) -> Result<Draft, Stop>
    ensures { Gives result (blocks.read_body draft kind draft.open_body (map (λ word. word.now) words.now)) }
{
    if draft.current.is_some() {
        return Err(Stop::Rule(FaultKind::Place));
    }
    if is_handler(kind) && draft.bodies.is_empty() {
        return Err(Stop::Rule(FaultKind::Place));
    }
    if words.len() != 1 {
        return Err(Stop::Rule(FaultKind::Argument));
    }
    begin_body(alloc, draft, kind, words[0])
}

/// A body of that kind and name is open.
fn begin_body(alloc: Global, draft: Draft, kind: BodyKind, name: &[u8]) -> Result<Draft, Stop>
    ensures { Gives result (blocks.begin_body draft kind (name.now ∷ [])) }
{
    if !is_body_name(name) {
        return Err(Stop::Rule(FaultKind::Argument));
    }
    let Draft {
        header,
        bodies,
        current: _,
    } = draft;
    if 64 <= bodies.len() {
        return Err(Stop::Rule(FaultKind::Many));
    }
    if is_taken(bodies.as_slice(), name) {
        return Err(Stop::Rule(FaultKind::Body));
    }
    match Name::new(name) {
        Ok(name) => Ok(Draft {
            header,
            bodies,
            current: Some(empty_body(alloc, kind, name)),
        }),
        Err(_) => Err(Stop::Rule(FaultKind::Argument)),
    }
}

fn is_taken(bodies: &[Body], name: &[u8]) -> bool
    ensures { result ≡ blocks.is_taken bodies.now name.now }
{
    bodies.iter().any(|body| body.name().as_slice() == name)
}

fn empty_body(alloc: Global, kind: BodyKind, name: Name) -> DraftBody
    ensures { result ≡ blocks.empty_body kind name }
{
    DraftBody {
        name,
        kind,
        items: Vec::new(alloc),
        count: 0,
        repeats: 0,
        registers: Registers::new(alloc),
    }
}

/// A line `repeat`, which stands in a task's body.
pub fn read_repeat(draft: Draft, words: &[&[u8]]) -> Result<Draft, Stop>
    ensures { Gives result (blocks.read_repeat draft draft.open_body (map (λ word. word.now) words.now)) }
{
    let Draft {
        header,
        bodies,
        current,
    } = draft;
    let Some(body) = current else {
        return Err(Stop::Rule(FaultKind::Place));
    };
    if is_handler(body.kind) {
        return Err(Stop::Rule(FaultKind::Place));
    }
    if words.len() != 1 {
        return Err(Stop::Rule(FaultKind::Argument));
    }
    let body = begin_repeat(body, number_of(words[0]))?;
    Ok(Draft {
        header,
        bodies,
        current: Some(body),
    })
}

/// One more repeat is open in a body.
fn begin_repeat(body: DraftBody, times: Option<u32>) -> Result<DraftBody, Stop>
    ensures { Gives result (blocks.begin_repeat body times) }
{
    let Some(times) = times else {
        return Err(Stop::Rule(FaultKind::Argument));
    };
    let DraftBody {
        name,
        kind,
        mut items,
        count,
        repeats,
        registers,
    } = body;
    if times < 1 || 100000 < times || 4 <= repeats || 4096 <= count {
        return Err(Stop::Rule(FaultKind::Many));
    }
    items.push(Item::Repeat { count: times })?;
    Ok(DraftBody {
        name,
        kind,
        items,
        count: count + 1,
        repeats: repeats + 1,
        registers,
    })
}

/// A line `end`.
pub fn read_end(draft: Draft, words: &[&[u8]]) -> Result<Draft, Stop>
    ensures { Gives result (blocks.read_end draft draft.open_body (map (λ word. word.now) words.now)) }
{
    let Draft {
        header,
        mut bodies,
        current,
    } = draft;
    let Some(body) = current else {
        return Err(Stop::Rule(FaultKind::Place));
    };
    if !words.is_empty() {
        return Err(Stop::Rule(FaultKind::Argument));
    }
    if 0 < body.repeats {
        let body = end_repeat(body)?;
        return Ok(Draft {
            header,
            bodies,
            current: Some(body),
        });
    }
    bodies.push(finished(body))?;
    Ok(Draft {
        header,
        bodies,
        current: None,
    })
}

/// The innermost repeat is done, and its end is an item of its body.
fn end_repeat(body: DraftBody) -> Result<DraftBody, OutOfMemory>
    requires { 0 < body.repeats }
    ensures { IfOk result (λ after. after ≡ blocks.end_repeat body) }
{
    let DraftBody {
        name,
        kind,
        mut items,
        count,
        repeats,
        registers,
    } = body;
    items.push(Item::End)?;
    Ok(DraftBody {
        name,
        kind,
        items,
        count,
        repeats: repeats - 1,
        registers,
    })
}

fn finished(body: DraftBody) -> Body
    requires { body.repeats ≡ 0 }
    ensures { result ≡ blocks.finished body }
{
    let DraftBody {
        name,
        kind,
        items,
        count: _,
        repeats: _,
        registers: _,
    } = body;
    Body::new(name, kind, items)
}
