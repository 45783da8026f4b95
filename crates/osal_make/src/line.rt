//! The lines and names of what is made.
ghost use Rattle.std.specs.Prelude.{◌≡◌, ◌≤◌, None, IfOk};
ghost use Rattle.osal_base.specs.Name.{name_fault};
ghost use Rattle.osal_make.specs.Items as lines;
ghost use Rattle.osal_make.specs.MakeText as text;

use osal_base::{Bytes, Name, OutOfMemory, Status};
use osal_line::{Expect, Line, Literal, ScriptCall, Value};
use osal_script::Item;
use std::alloc::Global;

/// A call line that expects nothing.
pub fn call_line(number: u32, call: ScriptCall) -> Item
    ensures { result ≡ lines.call_line number call }
{
    Item::Call(Line {
        number,
        call,
        expect: None,
    })
}

/// A call line that expects a status.
pub fn status_line(number: u32, call: ScriptCall, wanted: Status) -> Item
    ensures { result ≡ lines.status_line number call wanted }
{
    Item::Call(Line {
        number,
        call,
        expect: Some(Expect {
            code: wanted.number(),
            value: None,
        }),
    })
}

/// A call line that expects success and a number.
pub fn number_line(number: u32, call: ScriptCall, wanted: u64) -> Item
    ensures { result ≡ lines.number_line number call wanted }
{
    Item::Call(Line {
        number,
        call,
        expect: Some(Expect {
            code: Status::Success.number(),
            value: Some(Value::Number(wanted)),
        }),
    })
}

/// A string that stands in a line.
pub fn literal(alloc: Global, bytes: &[u8]) -> Result<Literal, OutOfMemory>
    ensures { IfOk result (λ literal. literal ≡ bytes.now) }
{
    Ok(Literal::new(Bytes::copy(alloc, bytes)?))
}

/// The name of these bytes.
pub fn name_of(bytes: &[u8]) -> Name
    requires { name_fault bytes.now ≡ None }
    ensures { result ≡ bytes.now }
{
    match Name::new(bytes) {
        Ok(name) => name,
        Err(_) => unreachable!(),
    }
}

/// The name of a worker, and that of its body.
pub fn worker_name(alloc: Global, worker: u32) -> Result<Name, OutOfMemory>
    requires some { 1 ≤ worker }
    requires few { worker ≤ 60 }
    ensures { IfOk result (λ name. name ≡ text.worker_name worker) }
{
    let text = format!(in alloc; "w{worker}")?;
    Ok(name_of(text.as_bytes()))
}
