//! The handlers that a tick runs.
ghost use Rattle.std.specs.Prelude.{◌≡◌, ◌+◌, ◌<◌, ◌≤◌, ◌++◌, [], ◌∷◌, length, option_copied, slice_get, drop};
ghost use Rattle.std.specs.Int.{from_be_bytes, w32};
ghost use Rattle.osal_base.specs.Reply.{reply_of};
ghost use Rattle.osal_line.specs.Calls.{register_of};
ghost use Rattle.osal_line.specs.Held.{registers_after};
ghost use Rattle.osal_script.specs.Script as script;
ghost use Rattle.osal_script.specs.Script.{handler_lines, handler_numbers, in_body, put_in};
ghost use Rattle.osal_call.specs.Firing.{timer_limit};
ghost use Rattle.osal_script.specs.Handling.{no_handlers, pending_in, registers_in};
ghost use Rattle.osal_script.specs.Walk.{first_of};

use crate::App;
use crate::walk::Walk;
use osal_base::{Answer, Reply};
use osal_call::{FIRING_LENGTH, TIMER_LIMIT, handler_at};
use osal_line::{BodyKind, Line, ScriptCall, set_register};
use std::marker::Model;

/// The numbers of the bodies that a tick's bytes name and that have not had their turn, the next one on top.
#[derive(Drop)]
struct HandlerNumbers {
    count: usize,
    numbers: [u32; 64],
}

impl Model for HandlerNumbers {
    ghost use Rattle.std.specs.Prelude.{◌≡◌, ◌≤◌, List, ℕ, length, take, reverse};

    ghost Value = { List ℕ };

    ghost view = { λ a. reverse (take a.count a.numbers) };

    ghost invariant = { λ a. (a.count ≤ 64) × (length a.numbers ≡ 64) };
}

impl HandlerNumbers {
    /// Nothing waits.
    fn none() -> HandlerNumbers
        ensures { result ≡ [] }
    {
        HandlerNumbers {
            count: 0,
            numbers: [0; 64],
        }
    }

    /// Puts a number on top.
    fn push(&mut self, number: u32)
        requires { length self.old < 64 }
        ensures { self.new ≡ number ∷ self.old }
    {
        self.numbers[self.count] = number;
        self.count += 1;
    }

    /// Takes the number on top.
    fn pop(&mut self) -> Option<u32>
        ensures top { result ≡ slice_get self.old 0 }
        ensures rest { self.new ≡ drop 1 self.old }
    {
        if self.count == 0 {
            return None;
        }
        self.count -= 1;
        Some(self.numbers[self.count])
    }
}

/// The handlers of the last tick: those that wait, and what is left of the one that has its turn.
///
/// A handler without lines has no turn.
#[derive(Drop)]
pub(crate) struct Handling<'a> {
    app: &'a App,
    walk: Walk<'a>,
    begun: bool,
    /// The registers of the handler that runs or has run.
    registers: [u32; 32],
    waiting: HandlerNumbers,
}

impl<'a> Model for Handling<'a> {
    ghost use Rattle.std.specs.Prelude.{◌≡◌, []};
    ghost use Rattle.osal_script.specs.Handling.{HandlingState};

    ghost Value = { HandlingState };

    ghost view = { λ a. record {
      bodies = a.app.now.bodies;
      lines = a.walk;
      begun = a.begun;
      waiting = a.waiting;
      registers = a.registers;
    } };

    ghost invariant = { λ a. a.walk ≡ [] → a.waiting ≡ [] };
}

impl<'a> Handling<'a> {
    /// No handlers.
    pub fn new(app: &'a App) -> Handling<'a>
        ensures { result ≡ no_handlers app.now.bodies }
    {
        Handling {
            app,
            walk: Walk::new(&[]),
            begun: false,
            registers: [0; 32],
            waiting: HandlerNumbers::none(),
        }
    }

    /// The handlers' line that comes next, if there is one.
    pub fn line(&self) -> Option<&'a Line>
        ensures first { option_copied result ≡ first_of self.now.lines }
        ensures last { self.now.lines ≡ [] → self.now.waiting ≡ [] }
    {
        self.walk.line()
    }

    /// The registers that the next line uses: each is at 0 where the line is the handler's first.
    pub fn frame(&self) -> &[u32; 32]
        ensures { result.now ≡ registers_in self.now }
    {
        if self.begun {
            &self.registers
        } else {
            &[0; 32]
        }
    }

    /// Goes past the next line, which makes that call, and its reply.
    pub fn pass(&mut self, call: &ScriptCall, reply: &Reply)
        ensures pending { pending_in self.new ≡ drop 1 (pending_in self.old) }
        ensures registers { self.new.registers
            ≡ registers_after (register_of call.now) (reply_of reply.now) (registers_in self.old) }
        ensures bodies { self.new.bodies ≡ self.old.bodies }
    {
        if !self.begun {
            self.registers = [0; 32];
        }
        set_register(&mut self.registers, call, reply);
        self.walk.pass();
        if self.walk.line().is_some() {
            self.begun = true;
            return;
        }
        self.walk = next_walk(self.app, &mut self.waiting);
        self.begun = false;
    }

    /// Goes past a line of the body and its reply: a tick that succeeds brings handlers.
    pub fn fire(&mut self, line: &Line, reply: &Reply)
        requires { pending_in self.old ≡ [] }
        ensures pending { pending_in self.new ≡ script.fired self.old.bodies (in_body line.now) (reply_of reply.now) }
        ensures registers { self.new.registers ≡ self.old.registers }
        ensures bodies { self.new.bodies ≡ self.old.bodies }
    {
        if !line.call.is_tick() || reply.answer != Answer::Code(0) {
            return;
        }
        let mut waiting = handlers_in(reply.bytes.as_slice());
        self.walk = next_walk(self.app, &mut waiting);
        self.begun = false;
        self.waiting = waiting;
    }
}

/// The walk of the next handler that has a line, or of none.
fn next_walk<'a>(app: &'a App, waiting: &mut HandlerNumbers) -> Walk<'a>
    ensures lines { script.of_handler result ++ put_in app.now.bodies waiting.new ≡ put_in app.now.bodies waiting.old }
    ensures last { result ≡ [] → waiting.new ≡ [] }
{
    loop {
        let Some(number) = waiting.pop() else {
            return Walk::new(&[]);
        };
        let walk = handler_walk(app, number);
        if walk.line().is_some() {
            return walk;
        }
    }
}

/// The walk of the handler of that number, or of none where that number is no handler's.
fn handler_walk<'a>(app: &'a App, number: u32) -> Walk<'a>
    ensures { script.of_handler result ≡ handler_lines (slice_get app.now.bodies number) }
{
    if app.bodies() <= number {
        return Walk::new(&[]);
    }
    let body = app.body(number);
    match body.kind() {
        BodyKind::Handler => Walk::new(body.items()),
        BodyKind::Task => Walk::new(&[]),
    }
}

/// The numbers of the handlers that a tick's bytes name.
fn handlers_in(bytes: &[u8]) -> HandlerNumbers
    ensures { result ≡ handler_numbers timer_limit bytes.now }
{
    let mut waiting = HandlerNumbers::none();
    let mut at = (bytes.len() / FIRING_LENGTH).min(TIMER_LIMIT);
    while 0 < at {
        at -= 1;
        waiting.push(handler_at(bytes, FIRING_LENGTH * at));
    }
    waiting
}
