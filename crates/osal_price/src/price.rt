//! What a call line costs.
ghost use Rattle.std.specs.Prelude.{◌≡◌, ◌<◌, replicate, slice_index};
ghost use Rattle.osal_call.specs.Signature.{timeout_of, object_call};
ghost use Rattle.osal_price.specs.Price as price;
ghost use Rattle.osal_price.specs.Saturated.{saturated, prices_of};

use osal_base::Timeout;
use osal_call::{NumberWord, ObjectWord};
use osal_line::ScriptCall;

/// The prices of what brings other lines about: the body of each number, and the handlers of a tick.
#[derive(Drop)]
pub struct Prices {
    /// The cost of the body of each number.
    pub bodies: [u64; 64],
    /// What the handlers of a tick cost.
    pub tick: u64,
}

impl Prices {
    /// Bodies cost nothing, and a tick so much.
    pub fn of_tick(tick: u64) -> Prices
        ensures { result ≡ record { bodies = replicate 64 0; tick = tick } }
    {
        Prices {
            bodies: [0; 64],
            tick,
        }
    }

    /// The cost of the body of that number; one that is not there costs nothing.
    pub fn body(&self, number: u32) -> u64
        ensures { result ≡ slice_index self.now.bodies number }
    {
        match self.bodies.get(number as usize) {
            Some(cost) => *cost,
            None => 0,
        }
    }
}

/// The cost of a line.
pub fn line_cost(prices: &Prices, call: &ScriptCall) -> u64
    ensures { result ≡ saturated (price.line_cost (prices_of prices.now) call.now) }
{
    more_cost(prices, call).saturating_add(2)
}

/// What a line costs beside its checkpoint and its call.
fn more_cost(prices: &Prices, call: &ScriptCall) -> u64
    ensures { result ≡ saturated (price.more_cost (prices_of prices.now) call.now) }
{
    match call {
        ScriptCall::Object { word, .. } => object_cost(*word),
        ScriptCall::Wait { wait, .. }
        | ScriptCall::SocketAccept { wait, .. }
        | ScriptCall::SelectOne { wait, .. }
        | ScriptCall::SelectMulti { wait, .. } => wait_cost(*wait),
        ScriptCall::Number {
            word: NumberWord::TimebaseTick,
            ..
        } => prices.tick,
        ScriptCall::TaskCreate { body, .. } => prices.body(*body).saturating_add(8),
        ScriptCall::TaskDelay { ms } => wait_cost(Timeout::Ms(*ms)),
        ScriptCall::QueuePut { payload, .. }
        | ScriptCall::Write { payload, .. }
        | ScriptCall::SocketSend { payload, .. } => payload.as_slice().len() as u64 / 64,
        ScriptCall::ConsoleWrite { payload } => 2 + payload.as_slice().len() as u64 / 64,
        ScriptCall::QueueGet { n, wait, .. }
        | ScriptCall::Read { n, wait, .. }
        | ScriptCall::SocketRecv { n, wait, .. } => wait_cost(*wait) + u64::from(*n / 64),
        ScriptCall::Name { .. }
        | ScriptCall::Value { .. }
        | ScriptCall::Number { .. }
        | ScriptCall::Path { .. }
        | ScriptCall::Paths { .. }
        | ScriptCall::Bare { .. }
        | ScriptCall::TaskExit
        | ScriptCall::QueueCreate { .. }
        | ScriptCall::TimerAdd { .. }
        | ScriptCall::TimerSet { .. }
        | ScriptCall::Mkfs { .. }
        | ScriptCall::Open { .. }
        | ScriptCall::Lseek { .. }
        | ScriptCall::SocketOpen { .. }
        | ScriptCall::SocketShutdown { .. } => 0,
    }
}

/// What a line with an identifier alone costs more: some wait, without a deadline.
fn object_cost(word: ObjectWord) -> u64
    ensures value { result ≡ price.wait_cost (timeout_of (object_call word 0)) }
    ensures few { result < 3 }
{
    match word {
        ObjectWord::MutSemTake | ObjectWord::CondvarLock => wait_cost(Timeout::Pend),
        _ => 0,
    }
}

/// What a line that may wait costs more: its end, and where it has a deadline the advance that reaches it.
fn wait_cost(wait: Timeout) -> u64
    ensures value { result ≡ price.wait_cost wait }
    ensures few { result < 3 }
{
    match wait {
        Timeout::Check => 0,
        Timeout::Pend => 1,
        Timeout::Ms(ms) => { if ms == 0 { 0 } else { 2 } }
    }
}
