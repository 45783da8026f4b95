//! Bodies and applications.
ghost use Rattle.std.specs.Prelude.{◌≡◌, ◌<◌, ◌≤◌, Some, length, slice_get, option_map};
ghost use Rattle.osal_script.specs.App.{NamesLater, HandlersAreBare};
ghost use Rattle.osal_script.specs.Nesting.{IsNested};

use crate::Item;
use osal_base::Name;
use osal_line::BodyKind;
use std::marker::Model;

/// A named script.
#[derive(Drop)]
pub struct Body {
    name: Name,
    kind: BodyKind,
    items: Vec<Item>,
}

impl Model for Body {
    ghost use Rattle.osal_script.specs.App.{ScriptBody};
    ghost use Rattle.osal_script.specs.Nesting.{IsNested};

    ghost Value = { ScriptBody };

    ghost view = { λ a. record { name = a.name; kind = a.kind; items = a.items.items } };

    ghost invariant = { λ a. IsNested a.items.items };
}

impl Body {
    /// The body of that name, kind and items.
    pub fn new(name: Name, kind: BodyKind, items: Vec<Item>) -> Body
        requires { IsNested items.items }
        ensures { result ≡ record { name = name; kind = kind; items = items.items } }
    {
        Body { name, kind, items }
    }

    /// Its name.
    pub fn name(&self) -> &Name
        ensures { result.now ≡ self.now.name }
    {
        &self.name
    }

    /// What runs it.
    pub fn kind(&self) -> BodyKind
        ensures { result ≡ self.now.kind }
    {
        self.kind
    }

    /// Its items, in order.
    pub fn items(&self) -> &[Item]
        ensures value { result.now ≡ self.now.items }
        ensures nested { IsNested result.now }
    {
        self.items.as_slice()
    }
}

/// An application: at least one body, of which the first is a task.
#[derive(Drop)]
pub struct App {
    bodies: Vec<Body>,
}

impl Model for App {
    ghost use Rattle.std.specs.Prelude.{◌<◌, ◌≤◌, length};
    ghost use Rattle.osal_script.specs.App.{Application, NamesLater, HandlersAreBare};

    ghost Value = { Application };

    ghost view = { λ a. record { version = 1; bodies = a.bodies.items } };

    ghost invariant = { λ a. (0 < length a.bodies.items) × (length a.bodies.items ≤ 64)
        × NamesLater (record { version = 1; bodies = a.bodies.items })
        × HandlersAreBare (record { version = 1; bodies = a.bodies.items }) };
}

impl App {
    /// The application of these bodies.
    pub fn new(bodies: Vec<Body>) -> App
        requires some { 0 < length bodies.items }
        requires few { length bodies.items ≤ 64 }
        requires later { NamesLater (record { version = 1; bodies = bodies.items }) }
        requires handlers { HandlersAreBare (record { version = 1; bodies = bodies.items }) }
        ensures { result ≡ record { version = 1; bodies = bodies.items } }
    {
        App { bodies }
    }

    /// How many bodies there are.
    pub fn bodies(&self) -> u32
        ensures count { result ≡ length self.now.bodies }
        ensures some { 0 < result }
        ensures few { result ≤ 64 }
        ensures later { NamesLater self.now }
        ensures handlers { HandlersAreBare self.now }
    {
        self.bodies.len() as u32
    }

    /// The body of that number.
    pub fn body(&self, number: u32) -> &Body
        requires { number < length self.now.bodies }
        ensures { slice_get self.now.bodies number ≡ Some result.now }
    {
        &self.bodies[number as usize]
    }

    /// The body that the application starts with.
    pub fn main(&self) -> &Body
        ensures some { 0 < length self.now.bodies }
        ensures first { slice_get self.now.bodies 0 ≡ Some result.now }
        ensures later { NamesLater self.now }
        ensures handlers { HandlersAreBare self.now }
    {
        &self.bodies[0]
    }

    /// The name of the body of that number.
    pub fn body_name(&self, number: u32) -> &Name
        requires { number < length self.now.bodies }
        ensures { option_map (λ body. body.name) (slice_get self.now.bodies number) ≡ Some result.now }
    {
        self.body(number).name()
    }
}
