//! The cases of a segment.
ghost use Rattle.std.specs.Prelude.{◌≡◌, ◌++◌, IfOk, OnOk, [], ◌∷◌, codes, if◌then◌else◌};
ghost use Rattle.std.specs.Fmt.{decimal};
ghost use Rattle.osal_line.specs.Calls.{call_name as name_of_call};
ghost use Rattle.osal_base.specs.Reply.{reply_of};
ghost use Rattle.osal_report.specs.Cases.{counts as does_count, code_in, answer_in, gives_id as gives, number_text, is_code as is_code_of, is_value as is_value_of, passes as passes_case, got_value, wanted_value, case_text};

use osal_base::{Answer, OutOfMemory, Reply};
use osal_script::{Expect, Line, ScriptCall, Value};
use osal_spelling::{push_answer, push_bytes, push_code, push_decimal, push_id, push_quoted};

/// Whether a call gives an identifier.
fn gives_id(call: &ScriptCall) -> bool
    ensures { result ≡ gives call.now }
{
    call.register().is_some()
}

/// Whether the code of a call's success is a count or a place.
fn counts(call: &ScriptCall) -> bool
    ensures { result ≡ does_count call.now }
{
    matches!(
        call,
        ScriptCall::Read { .. }
            | ScriptCall::Write { .. }
            | ScriptCall::Lseek { .. }
            | ScriptCall::SocketSend { .. }
            | ScriptCall::SocketRecv { .. }
    )
}

/// Appends a code as a call's line spells it: a count of none is `0`.
fn push_code_in(out: &mut Vec<u8>, call: &ScriptCall, code: i32) -> Result<(), OutOfMemory>
    ensures { OnOk result (out.new.items ≡ out.old.items ++ code_in call.now code) }
{
    if counts(call) && code == 0 {
        push_bytes(out, b"0")
    } else {
        push_code(out, code)
    }
}

/// Appends an answer as a call's line spells it.
fn push_answer_in(out: &mut Vec<u8>, call: &ScriptCall, answer: Answer) -> Result<(), OutOfMemory>
    ensures { OnOk result (out.new.items ≡ out.old.items ++ answer_in call.now answer) }
{
    match answer {
        Answer::Code(code) => push_code_in(out, call, code),
        Answer::Waits | Answer::Go | Answer::Deleted => push_answer(out, answer),
    }
}

fn push_number(out: &mut Vec<u8>, call: &ScriptCall, number: u64) -> Result<(), OutOfMemory>
    ensures { OnOk result (out.new.items ≡ out.old.items ++ number_text call.now number) }
{
    if gives_id(call) && number < 1 << 32 {
        push_id(out, number)
    } else {
        push_decimal(out, number)
    }
}

fn is_code(code: i32, answer: Answer) -> bool
    ensures { result ≡ is_code_of code answer }
{
    match answer {
        Answer::Code(other) => other == code,
        Answer::Waits | Answer::Go | Answer::Deleted => false,
    }
}

fn is_value(value: &Option<Value>, reply: &Reply) -> bool
    ensures { result ≡ is_value_of value.now (reply_of reply.now) }
{
    match value {
        None => true,
        Some(Value::Number(number)) => reply.number == *number,
        Some(Value::Text(text)) => reply.bytes.as_slice() == text.as_slice(),
    }
}

/// Whether a line's reply is what it expects.
pub(crate) fn passes(line: &Line, expect: &Expect, reply: &Reply) -> bool
    ensures { result
        ≡ passes_case (record { line = line.now; expect = expect.now; reply = reply_of reply.now }) }
{
    is_code(expect.code, reply.answer) && is_value(&expect.value, reply)
}

fn push_got(
    out: &mut Vec<u8>,
    call: &ScriptCall,
    value: &Option<Value>,
    reply: &Reply,
) -> Result<(), OutOfMemory>
    ensures { OnOk result (out.new.items
        ≡ out.old.items ++ got_value call.now value.now (reply_of reply.now)) }
{
    match value {
        None => Ok(()),
        Some(Value::Number(_)) => {
            push_bytes(out, b" ")?;
            push_number(out, call, reply.number)
        }
        Some(Value::Text(_)) => {
            push_bytes(out, b" ")?;
            push_quoted(out, reply.bytes.as_slice())
        }
    }
}

fn push_wanted(
    out: &mut Vec<u8>,
    call: &ScriptCall,
    value: &Option<Value>,
) -> Result<(), OutOfMemory>
    ensures { OnOk result (out.new.items ≡ out.old.items ++ wanted_value call.now value.now) }
{
    match value {
        None => Ok(()),
        Some(Value::Number(number)) => {
            push_bytes(out, b" ")?;
            push_number(out, call, *number)
        }
        Some(Value::Text(text)) => {
            push_bytes(out, b" ")?;
            push_quoted(out, text.as_slice())
        }
    }
}

fn push_case_head(
    out: &mut Vec<u8>,
    number: u64,
    line: &Line,
    pass: bool,
) -> Result<(), OutOfMemory>
    ensures { OnOk result (out.new.items
        ≡ out.old.items ++ ((if pass then codes "[ PASS] " else codes "[ FAIL] ")
        ++ (decimal number ++ (codes " line " ++ (decimal line.now.number
        ++ (32 ∷ [] ++ (name_of_call line.now.call ++ 32 ∷ []))))))) }
{
    push_bytes(out, if pass { b"[ PASS] " } else { b"[ FAIL] " })?;
    push_decimal(out, number)?;
    push_bytes(out, b" line ")?;
    push_decimal(out, u64::from(line.number))?;
    push_bytes(out, b" ")?;
    push_bytes(out, line.call.name())?;
    push_bytes(out, b" ")?;
    Ok(())
}

/// Appends what was wanted, where it was not got.
fn push_missed(
    out: &mut Vec<u8>,
    line: &Line,
    expect: &Expect,
    pass: bool,
) -> Result<(), OutOfMemory>
    ensures { OnOk result (out.new.items ≡ out.old.items ++ (if pass then []
        else codes " expected "
        ++ (code_in line.now.call expect.now.code ++ wanted_value line.now.call expect.now.value))) }
{
    if pass {
        return Ok(());
    }
    push_bytes(out, b" expected ")?;
    push_code_in(out, &line.call, expect.code)?;
    push_wanted(out, &line.call, &expect.value)?;
    Ok(())
}

/// Appends the line of a case, and says whether it passes.
#[tactic(auto, unfolding(crate::specs::Cases::case_text))]
pub(crate) fn push_case(
    out: &mut Vec<u8>,
    number: u64,
    line: &Line,
    expect: &Expect,
    reply: &Reply,
) -> Result<bool, OutOfMemory>
    ensures text { OnOk result (out.new.items ≡ out.old.items ++ case_text number
        (record { line = line.now; expect = expect.now; reply = reply_of reply.now })) }
    ensures pass { IfOk result (λ pass. pass ≡ passes_case
        (record { line = line.now; expect = expect.now; reply = reply_of reply.now })) }
{
    let pass = passes(line, expect, reply);
    push_case_head(out, number, line, pass)?;
    push_answer_in(out, &line.call, reply.answer)?;
    push_got(out, &line.call, &expect.value, reply)?;
    push_missed(out, line, expect, pass)?;
    push_bytes(out, b"\n")?;
    Ok(pass)
}
