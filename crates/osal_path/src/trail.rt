//! The names along a path.
ghost use Rattle.std.specs.Prelude.{◌≡◌, ◌≤◌, ◌<◌, [], ◌∷◌, ◌++◌, length};

use osal_base::Name;
use std::array;
use std::marker::Model;

/// At most 31 names, which take no memory from the heap.
#[derive(Drop)]
pub struct Trail {
    places: [Name; 31],
    len: usize,
}

impl Model for Trail {
    ghost use Rattle.std.specs.Prelude.{◌≡◌, ◌≤◌, List, ℕ, length, take};

    ghost Value = { List (List ℕ) };

    ghost view = { λ a. take a.len a.places };

    ghost invariant = { λ a. (a.len ≤ 31) × (length a.places ≡ 31) };
}

impl Trail {
    pub(crate) fn new() -> Trail
        ensures { result ≡ [] }
    {
        Trail {
            places: array::from_fn(|_| blank()),
            len: 0,
        }
    }

    /// The names, in the order of the path.
    pub fn names(&self) -> &[Name]
        ensures value { result.now ≡ self.now }
        ensures few { length self.now ≤ 31 }
    {
        &self.places[..self.len]
    }

    pub(crate) fn push(&mut self, name: Name)
        requires { length self.old < 31 }
        ensures { self.new ≡ self.old ++ name ∷ [] }
    {
        self.places[self.len] = name;
        self.len += 1;
    }

    /// Takes the first name off.
    pub(crate) fn take_first(&mut self) -> Name
        requires { 1 ≤ length self.old }
        ensures { self.old ≡ result ∷ self.new }
    {
        let first = self.places[0].copied();
        self.places.rotate_left(1);
        self.len -= 1;
        first
    }
}

// Stands in each place that has no name.
fn blank() -> Name {
    Name::new(b"-").unwrap()
}
