//! The body of a worker: it passes messages through a queue of its own, and tells that it is done.
ghost use Rattle.std.specs.Prelude.{◌≡◌, ◌≤◌, IfOk};
ghost use Rattle.osal_base.specs.declared.time.Timeout.TheVariants as timeout;
ghost use Rattle.osal_call.specs.declared.word.text.NameWord.TheVariants as name_word;
ghost use Rattle.osal_call.specs.declared.word.object.ObjectWord.TheVariants as object;
ghost use Rattle.osal_line.specs.declared.line.ScriptCall.TheVariants as script;
ghost use Rattle.osal_make.specs.Items as lines;
ghost use Rattle.osal_make.specs.Made as made;
ghost use Rattle.osal_make.specs.MakeText as text;

use crate::line::{call_line, literal, status_line, worker_name};
use osal_base::{OutOfMemory, Status, Timeout};
use osal_call::{NameWord, ObjectWord};
use osal_line::{BodyKind, Literal, Register, ScriptCall};
use osal_script::{Body, Item};
use std::alloc::Global;

/// The register of the worker's queue.
const QUEUE: u32 = 0;

/// The register of the semaphore that it gives when it is done.
const SEMAPHORE: u32 = 1;

/// How many messages it passes.
const MESSAGES: u32 = 1000;

/// The most messages that its queue holds.
const DEPTH: u32 = 10;

/// The most bytes of a message.
const SIZE: u32 = 8;

/// The body of a worker, among so many. Each worker has ten lines.
pub fn worker_body(alloc: Global, workers: u32, worker: u32) -> Result<Body, OutOfMemory>
    requires some { 1 ≤ worker }
    requires among { worker ≤ workers }
    requires few { workers ≤ 60 }
    ensures { IfOk result (λ body. body ≡ made.worker_body workers worker) }
{
    let name = worker_name(alloc, worker)?;
    let items = worker_items(alloc, workers + 10 * worker, worker, name.as_slice())?;
    Ok(Body::new(name, BodyKind::Task, items))
}

/// The items of a worker's body, whose first call has that line: that of the last of 60 has line 660.
fn worker_items(
    alloc: Global,
    first: u32,
    worker: u32,
    name: &[u8],
) -> Result<Vec<Item>, OutOfMemory>
    requires few { first ≤ 660 }
    requires named { name.now ≡ text.worker_name worker }
    ensures { IfOk result (λ items. items.items ≡ lines.worker_items first worker) }
{
    let creation = queue_creation(alloc, worker)?;
    let message = literal(alloc, name)?;
    let done = literal(alloc, b"done".as_slice())?;
    Ok(vec![in alloc;
        status_line(first, creation, Status::Success),
        Item::Repeat { count: MESSAGES },
        call_line(first + 2, put(message)),
        call_line(first + 3, get()),
        Item::End,
        status_line(first + 5, get(), Status::QueueEmpty),
        call_line(first + 6, find(done)),
        status_line(first + 7, give(), Status::Success),
    ]?)
}

fn queue_creation(alloc: Global, worker: u32) -> Result<ScriptCall, OutOfMemory>
    ensures { IfOk result (λ call. call ≡ script.QueueCreate 0 (text.queue_name worker) 10 8) }
{
    let name = format!(in alloc; "q{worker}")?;
    Ok(ScriptCall::QueueCreate {
        register: Register::new(QUEUE),
        name: literal(alloc, name.as_bytes())?,
        depth: DEPTH,
        size: SIZE,
    })
}

fn put(message: Literal) -> ScriptCall
    ensures { result ≡ script.QueuePut 0 message }
{
    ScriptCall::QueuePut {
        id: Register::new(QUEUE),
        payload: message,
    }
}

/// Gets a message that must be there: it does not wait.
fn get() -> ScriptCall
    ensures { result ≡ script.QueueGet 0 8 timeout.Check }
{
    ScriptCall::QueueGet {
        id: Register::new(QUEUE),
        n: SIZE,
        wait: Timeout::Check,
    }
}

fn find(semaphore: Literal) -> ScriptCall
    ensures { result ≡ script.Name name_word.CountSemFind 1 semaphore }
{
    ScriptCall::Name {
        word: NameWord::CountSemFind,
        register: Register::new(SEMAPHORE),
        name: semaphore,
    }
}

fn give() -> ScriptCall
    ensures { result ≡ script.Object object.CountSemGive 1 }
{
    ScriptCall::Object {
        word: ObjectWord::CountSemGive,
        id: Register::new(SEMAPHORE),
    }
}
