//! What an application costs: a bound on the entries of its runs.
ghost use Rattle.std.specs.Prelude.{◌≡◌, ◌<◌, ◌-◌, ◌^◌, [], ◌∷◌, length, min};
ghost use Rattle.osal_price.specs.Saturated.{saturated, prices_of};
ghost use Rattle.osal_script.specs.Cost as cost;
ghost use Rattle.osal_script.specs.Cost.{cost_of, first_cost, greatest_handler, level_costs};
ghost use Rattle.osal_script.specs.Nesting.{IsNested};
ghost use Rattle.osal_script.specs.Saturated.{onto_saturated, repeated_saturated};

use crate::{App, Body, Item};
use osal_base::Limits;
use osal_call::TIMER_LIMIT;
use osal_line::BodyKind;
use osal_price::{Prices, line_cost};
use std::marker::Model;

/// The costs of the levels that are open at an item, the innermost last.
#[derive(Drop)]
struct Levels {
    depth: usize,
    costs: [u64; 5],
}

impl Model for Levels {
    ghost use Rattle.std.specs.Prelude.{◌≡◌, ◌≤◌, ◌+◌, List, ℕ, length, take, reverse};

    ghost Value = { List ℕ };

    ghost view = { λ a. reverse (take (a.depth + 1) a.costs) };

    ghost invariant = { λ a. (a.depth ≤ 4) × (length a.costs ≡ 5) };
}

impl Levels {
    /// One level, which costs nothing.
    fn new() -> Levels
        ensures { result ≡ 0 ∷ [] }
    {
        Levels {
            depth: 0,
            costs: [0; 5],
        }
    }

    /// The cost of the outermost level.
    fn outermost(&self) -> u64
        requires { length self.now ≡ 1 }
        ensures { result ≡ first_cost self.now }
    {
        self.costs[0]
    }

    /// A line costs so much.
    fn add(&mut self, cost: u64)
        requires { 0 < length self.old }
        ensures { self.new ≡ onto_saturated cost self.old }
    {
        self.costs[self.depth] = cost.saturating_add(self.costs[self.depth]);
    }

    /// A level ends here.
    fn end(&mut self)
        requires { length self.old < 5 }
        ensures { self.new ≡ 0 ∷ self.old }
    {
        self.depth += 1;
        self.costs[self.depth] = 0;
    }

    /// The innermost level is repeated so many times, in the level around it.
    fn repeat(&mut self, count: u32)
        requires { 1 < length self.old }
        ensures { self.new ≡ repeated_saturated count self.old }
    {
        let turns = u64::from(count).saturating_mul(self.costs[self.depth]);
        self.depth -= 1;
        self.costs[self.depth] = turns.saturating_add(self.costs[self.depth]);
    }
}

impl App {
    /// A bound on the entries of a run of the application, or the greatest number where the bound is above it.
    pub fn cost(&self) -> u64
        ensures { result ≡ min (cost_of self.now) (2 ^ 64 - 1) }
    {
        let mut prices = Prices::of_tick(self.tick_cost());
        let mut number = self.bodies();
        while 0 < number {
            number -= 1;
            let items = items_cost(&prices, self.body(number).items());
            prices.bodies[number as usize] = items.saturating_add(2);
        }
        prices.bodies[0].saturating_add(1)
    }

    /// What a tick costs beside its line: the dearest handler, as often as timers may fire.
    fn tick_cost(&self) -> u64
        ensures { result ≡ saturated (cost.tick_cost self.now.bodies) }
    {
        let timers = Limits::version1().timers.min(TIMER_LIMIT as u32);
        u64::from(timers).saturating_mul(self.greatest_handler())
    }

    /// The cost of the dearest handler.
    fn greatest_handler(&self) -> u64
        ensures { result ≡ saturated (greatest_handler self.now.bodies) }
    {
        let mut greatest = 0;
        let mut number = self.bodies();
        while 0 < number {
            number -= 1;
            greatest = handler_cost(self.body(number)).max(greatest);
        }
        greatest
    }
}

/// The cost of a handler, which neither creates tasks nor ticks; a task body is none.
fn handler_cost(body: &Body) -> u64
    ensures { result ≡ saturated (cost.handler_cost body.now.kind body.now.items) }
{
    match body.kind() {
        BodyKind::Handler => items_cost(&Prices::of_tick(0), body.items()),
        BodyKind::Task => 0,
    }
}

/// The cost of a body's items.
fn items_cost(prices: &Prices, items: &[Item]) -> u64
    requires { IsNested items.now }
    ensures { result ≡ saturated (first_cost (level_costs (prices_of prices.now) items.now)) }
{
    let mut levels = Levels::new();
    let mut at = items.len();
    while 0 < at {
        at -= 1;
        match &items[at] {
            Item::Call(line) => levels.add(line_cost(prices, &line.call)),
            Item::Repeat { count } => levels.repeat(*count),
            Item::End => levels.end(),
        }
    }
    levels.outermost()
}
