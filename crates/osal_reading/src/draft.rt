//! How far a text is read.
ghost use Rattle.std.specs.Prelude.{◌≡◌};
ghost use Rattle.osal_reading.specs.Draft as draft;

use osal_base::Name;
use osal_line::{BodyKind, Registers};
use osal_script::{Body, Item};
use std::alloc::Global;
use std::marker::Model;

/// A body whose end is still to come.
#[derive(Drop)]
pub struct DraftBody {
    pub name: Name,
    pub kind: BodyKind,
    pub items: Vec<Item>,
    /// How many call lines and repeats it has.
    pub count: u32,
    /// How many repeats are open.
    pub repeats: u32,
    pub registers: Registers,
}

impl Model for DraftBody {
    ghost use Rattle.std.specs.Prelude.{◌≡◌, Some};
    ghost use Rattle.osal_reading.specs.Draft as draft;
    ghost use Rattle.osal_script.specs.Nesting.{depth_after};

    ghost Value = { draft.OpenBody };

    ghost view = { λ a. record {
      name = a.name;
      kind = a.kind;
      items = a.items.items;
      count = a.count;
      repeats = a.repeats;
      registers = a.registers;
    } };

    ghost invariant = { λ a. depth_after 0 a.items.items ≡ Some a.repeats };
}

/// Whether the header was there, the bodies that are done, and the one that is open.
#[derive(Drop)]
pub struct Draft {
    pub header: bool,
    pub bodies: Vec<Body>,
    pub current: Option<DraftBody>,
}

impl Model for Draft {
    ghost use Rattle.osal_reading.specs.Draft as draft;

    ghost Value = { draft.Reading };

    ghost view = { λ a. record { header = a.header; bodies = a.bodies.items; open_body = a.current } };

    ghost invariant = { λ a. Unit {0} };
}

impl Draft {
    /// Nothing is read.
    pub fn new(alloc: Global) -> Draft
        ensures { result ≡ draft.unread }
    {
        Draft {
            header: false,
            bodies: Vec::new(alloc),
            current: None,
        }
    }
}
