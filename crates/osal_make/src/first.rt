//! The first body: it creates the workers, and waits for each.
ghost use Rattle.std.specs.Prelude.{◌≡◌, ◌≤◌, ◌++◌, IfOk, OnOk};
ghost use Rattle.osal_make.specs.Items as lines;
ghost use Rattle.osal_make.specs.Made as made;

use crate::line::{call_line, literal, name_of, number_line, status_line, worker_name};
use osal_base::{OutOfMemory, Status, Timeout};
use osal_call::{ObjectWord, ValueWord, WaitWord};
use osal_line::{BodyKind, Register, ScriptCall};
use osal_script::{Body, Item};
use std::alloc::Global;

/// The register of the semaphore that each worker gives when it is done.
const SEMAPHORE: u32 = 0;

/// The register of a worker.
const WORKER: u32 = 1;

/// The first body for so many workers. It sees that no worker gives the semaphore twice.
pub fn main_body(alloc: Global, workers: u32) -> Result<Body, OutOfMemory>
    requires some { 1 ≤ workers }
    requires few { workers ≤ 60 }
    ensures { IfOk result (λ body. body ≡ made.main_body workers) }
{
    let items = main_items(alloc, workers)?;
    Ok(Body::new(name_of(b"main".as_slice()), BodyKind::Task, items))
}

fn main_items(alloc: Global, workers: u32) -> Result<Vec<Item>, OutOfMemory>
    requires some { 1 ≤ workers }
    requires few { workers ≤ 60 }
    ensures { IfOk result (λ items. items.items ≡ lines.main_items workers) }
{
    let mut items = Vec::new(alloc);
    items.push(semaphore_creation(alloc)?)?;
    for worker in 1..=workers {
        items.push(worker_creation(alloc, worker)?)?;
    }
    push_waits(&mut items, workers)?;
    Ok(items)
}

/// The third line: the header and the line that begins the body stand before it.
fn semaphore_creation(alloc: Global) -> Result<Item, OutOfMemory>
    ensures { IfOk result (λ item. item ≡ lines.semaphore_item) }
{
    let call = ScriptCall::Value {
        word: ValueWord::CountSemCreate,
        register: Register::new(SEMAPHORE),
        name: literal(alloc, b"done".as_slice())?,
        value: 0,
    };
    Ok(call_line(3, call))
}

fn worker_creation(alloc: Global, worker: u32) -> Result<Item, OutOfMemory>
    requires some { 1 ≤ worker }
    requires few { worker ≤ 60 }
    ensures { IfOk result (λ item. item ≡ lines.creation_item worker) }
{
    let name = worker_name(alloc, worker)?;
    let call = ScriptCall::TaskCreate {
        register: Register::new(WORKER),
        name: literal(alloc, name.as_slice())?,
        body: worker,
        stack: 1024,
        priority: 100,
    };
    Ok(call_line(worker + 3, call))
}

/// Waits for each worker, and asks for the semaphore, which none may have given again.
fn push_waits(items: &mut Vec<Item>, workers: u32) -> Result<(), OutOfMemory>
    requires { workers ≤ 60 }
    ensures { OnOk result (items.new.items ≡ items.old.items ++ lines.waiting_items workers) }
{
    let take = ScriptCall::Wait {
        word: WaitWord::CountSemTake,
        id: Register::new(SEMAPHORE),
        wait: Timeout::Pend,
    };
    let info = ScriptCall::Object {
        word: ObjectWord::CountSemInfo,
        id: Register::new(SEMAPHORE),
    };
    items.push(Item::Repeat { count: workers })?;
    items.push(status_line(workers + 5, take, Status::Success))?;
    items.push(Item::End)?;
    items.push(number_line(workers + 7, info, 0))?;
    Ok(())
}
