//! The cursor: how far a task has come in its script.
ghost use Rattle.std.specs.Prelude.{◌≡◌, Some, IfOk, OnErr, OnOk, option_copied, option_map, if◌then◌else◌};
ghost use Rattle.osal_base.specs.Reply.{reply_of, is_waits};
ghost use Rattle.osal_call.specs.Call.{said};
ghost use Rattle.osal_script.specs.declared.phase.Phase.TheVariants as phase;
ghost use Rattle.osal_script.specs.Script as script;
ghost use Rattle.osal_script.specs.Script.{start_of, after, after_answer};
ghost use Rattle.osal_script.specs.Cursor.{moved, first_line, first_frame, line_number, IsStep};

use crate::handling::Handling;
use crate::walk::Walk;
use crate::{App, Body, Phase};
use osal_base::{Answer, OutOfMemory, Reply};
use osal_call::{Call, part_of};
use osal_line::{Line, ScriptCall, call_made, part_made, set_register};
use std::alloc::Global;
use std::marker::Model;

/// What a cursor gives.
#[derive(Drop)]
pub enum Step {
    /// The call to make, and the line that it belongs to: 0 for the exit at the end of a body.
    Make { line: u32, call: Call },
    /// The script is at its end.
    Finished,
}

/// A walk along a body's script: its lines, and behind a tick those of the handlers that the tick runs.
#[derive(Drop)]
pub struct Cursor<'a> {
    phase: Phase,
    walk: Walk<'a>,
    registers: [u32; 32],
    handling: Handling<'a>,
}

impl<'a> Model for Cursor<'a> {
    ghost use Rattle.std.specs.Prelude.{◌++◌, map};
    ghost use Rattle.osal_script.specs.Script.{ScriptState, in_body};
    ghost use Rattle.osal_script.specs.Handling.{pending_in};

    ghost Value = { ScriptState };

    ghost view = { λ a. record {
      phase = a.phase;
      pending = pending_in a.handling ++ map in_body a.walk;
      frames = record { body = a.registers; handler = a.handling.registers };
      bodies = a.handling.bodies;
    } };

    ghost invariant = { λ a. Unit {0} };
}

impl<'a> Cursor<'a> {
    /// A cursor at the start of a body's script; a tick runs handlers of the application.
    pub fn new(app: &'a App, body: &'a Body) -> Cursor<'a>
        ensures { result ≡ start_of app.now.bodies body.now }
    {
        Cursor {
            phase: Phase::Before,
            walk: Walk::new(body.items()),
            registers: [0; 32],
            handling: Handling::new(app),
        }
    }

    /// What comes next.
    pub fn phase(&self) -> Phase
        ensures { result ≡ self.now.phase }
    {
        self.phase
    }

    /// The call line that comes next, behind its checkpoint, or none before the exit.
    pub fn line(&self) -> Option<&'a Line>
        ensures { option_copied result ≡ first_line self.now.pending }
    {
        match self.handling.line() {
            Some(line) => Some(line),
            None => self.walk.line(),
        }
    }

    /// The registers that the next line uses: the body's, or those of a handler.
    fn frame(&self) -> &[u32; 32]
        ensures { result.now ≡ first_frame self.now.pending self.now.frames }
    {
        match self.handling.line() {
            Some(_) => self.handling.frame(),
            None => &self.registers,
        }
    }

    /// Goes past a call that was made, and its reply. It takes no memory.
    ///
    /// A tick of the body that succeeds puts the handlers that its reply names before the body's next line.
    pub fn follow(&mut self, call: &Call, reply: &Reply)
        ensures { self.new ≡ after self.old call.now (reply_of reply.now) }
    {
        match self.phase {
            Phase::Before => self.phase = phase_after_checkpoint(reply.answer),
            Phase::At => self.pass_line(part_of(call), reply),
            Phase::Waiting { part } => {
                if is_checkpoint(call) {
                    self.phase = Phase::Leaving { part };
                } else {
                    self.pass_answer(reply);
                }
            }
            Phase::Leaving { .. } | Phase::Ended => self.phase = Phase::Ended,
        }
    }

    /// The next call of the script, after the reply to the last one. The first call takes none.
    ///
    /// A name and a payload are copied. Want of memory leaves the cursor where it was.
    pub fn next(&mut self, alloc: Global, reply: Option<&Reply>) -> Result<Step, OutOfMemory>
        ensures moved { OnOk result (self.new ≡ moved self.old (option_map (λ r. reply_of r.now) reply.entry)) }
        ensures step { IfOk result (λ step. IsStep self.new step) }
        ensures memory { OnErr result (self.new ≡ self.old) }
    {
        let phase = self.phase;
        if let Some(reply) = reply {
            self.pass(reply);
        }
        match self.step(alloc) {
            Ok(step) => Ok(step),
            Err(error) => {
                // Only a line's call takes memory, and its checkpoint changed no more than the phase.
                self.phase = phase;
                Err(error)
            }
        }
    }

    /// Goes past the call that comes next, unless its task is deleted in a wait, and its reply.
    #[tactic(auto, using(crate::proofs::Frames::call_with_frame))]
    fn pass(&mut self, reply: &Reply)
        ensures { self.new ≡ moved self.old (Some (reply_of reply.now)) }
    {
        match self.phase {
            Phase::Before => self.phase = phase_after_checkpoint(reply.answer),
            Phase::At => {
                let part = part_made(self.line(), self.frame());
                self.pass_line(part, reply);
            }
            Phase::Waiting { .. } => self.pass_answer(reply),
            Phase::Leaving { .. } | Phase::Ended => self.phase = Phase::Ended,
        }
    }

    /// Goes past a line's call of that part and its reply: an answer, or that the call waits.
    fn pass_line(&mut self, part: u32, reply: &Reply)
        ensures { self.new ≡ (if is_waits reply.now.answer
            then record self.old { phase = phase.Waiting part }
            else after_answer self.old.bodies self.old.pending self.old.frames (reply_of reply.now)) }
    {
        match reply.answer {
            Answer::Waits => self.phase = Phase::Waiting { part },
            Answer::Code(_) | Answer::Go | Answer::Deleted => self.pass_answer(reply),
        }
    }

    /// Goes past a line that was answered, or past the exit where no line is left.
    fn pass_answer(&mut self, reply: &Reply)
        ensures { self.new ≡ after_answer self.old.bodies self.old.pending self.old.frames (reply_of reply.now) }
    {
        if let Some(line) = self.handling.line() {
            self.phase = phase_after_line(&line.call, reply.answer);
            self.handling.pass(&line.call, reply);
            return;
        }
        let Some(line) = self.walk.line() else {
            self.phase = Phase::Ended;
            return;
        };
        self.phase = phase_after_line(&line.call, reply.answer);
        self.walk.pass();
        set_register(&mut self.registers, &line.call, reply);
        self.handling.fire(line, reply);
    }

    /// The call of the line that comes next, or the exit where none does.
    #[inline(always)] // a call is large to move
    #[tactic(auto, using(crate::proofs::Frames::call_with_frame))]
    fn line_call(&self, alloc: Global) -> Result<Call, OutOfMemory>
        ensures { IfOk result (λ call. said call ≡ script.line_call self.now.pending self.now.frames) }
    {
        call_made(alloc, self.line(), self.frame())
    }

    /// The next call with its line. A name and a payload are copied: no call but a line's takes memory.
    #[inline(always)] // a call is large to move
    pub fn step(&self, alloc: Global) -> Result<Step, OutOfMemory>
        ensures step { IfOk result (λ step. IsStep self.now step) }
        ensures memory { OnErr result (self.now.phase ≡ phase.At) }
    {
        let line = self.line();
        let call = match self.phase {
            Phase::Before => Call::Checkpoint,
            Phase::At => self.line_call(alloc)?,
            Phase::Waiting { part } => Call::WaitEnd { part },
            Phase::Leaving { part } => Call::WaitAbandon { part },
            Phase::Ended => return Ok(Step::Finished),
        };
        Ok(Step::Make {
            line: number_of(line),
            call,
        })
    }
}

/// What a checkpoint's answer leads to.
fn phase_after_checkpoint(answer: Answer) -> Phase
    ensures { result ≡ script.phase_after_checkpoint answer }
{
    match answer {
        Answer::Go => Phase::At,
        Answer::Deleted | Answer::Waits | Answer::Code(_) => Phase::Ended,
    }
}

/// What the answer of a line leads to.
fn phase_after_line(call: &ScriptCall, answer: Answer) -> Phase
    ensures { result ≡ script.phase_after_line call.now answer }
{
    match (call, answer) {
        (ScriptCall::TaskExit, Answer::Code(0)) => Phase::Ended,
        _ => Phase::Before,
    }
}

/// Whether a call is a checkpoint.
fn is_checkpoint(call: &Call) -> bool
    ensures { result ≡ script.is_checkpoint call.now }
{
    matches!(call, Call::Checkpoint)
}

/// The number of a line, or 0 before the exit.
fn number_of(line: Option<&Line>) -> u32
    ensures { result ≡ line_number (option_copied line.entry) }
{
    match line {
        Some(line) => line.number,
        None => 0,
    }
}
