//! What a wait stands on.
ghost use Rattle.std.specs.Prelude.{◌≡◌, ◌≤◌, length, MatchResult};
ghost use Rattle.osal_object.specs.Standing.{standing_on, each_limit, is_among};

use arrayvec::ArrayVec;
use osal_base::OsalId;
use std::marker::Model;

/// The most objects that a wait stands on: the streams of the two sets of a select.
const EACH_LIMIT: usize = 128;

/// One object at most, or each of several.
#[derive(Debug, Drop)]
pub(crate) enum On {
    /// Most waits stand on one object, or on none.
    One(Option<OsalId>),
    // Raw, since an ArrayVec fills its free places with a default, which an identifier has not.
    Each(ArrayVec<u32, 128>),
}

/// The objects that a wait stands on, and holds while it is open. It takes no memory.
#[derive(Debug, Drop)]
pub struct Standing {
    on: On,
}

impl Model for Standing {
    ghost use Rattle.std.specs.Prelude.{ℕ, List};
    ghost use Rattle.osal_object.specs.Standing.{listed};

    ghost Value = { List ℕ };

    ghost view = { λ a. listed a.on };

    ghost invariant = { λ a. Unit {0} };
}

impl Standing {
    /// On this object, or on nothing.
    pub fn new(on: Option<OsalId>) -> Standing
        ensures { result ≡ standing_on on }
    {
        Standing { on: On::One(on) }
    }

    /// On each of these objects, by the numbers that their identifiers are.
    pub fn on_each(ids: &[u32]) -> Standing
        requires { length ids.now ≤ each_limit }
        ensures { result ≡ ids.now }
    {
        let mut each = ArrayVec::new();
        let copied = each.try_extend_from_slice(ids);
        copied.unwrap();
        Standing { on: On::Each(each) }
    }

    /// Whether it is on an object. It looks at each at most.
    pub(crate) fn is_on(&self, id: OsalId) -> bool
        ensures { result ≡ is_among id self.now }
    {
        match &self.on {
            On::One(None) => false,
            On::One(Some(on)) => *on == id,
            On::Each(ids) => is_among(ids.as_slice(), id),
        }
    }

    /// The one object that it is on, or none.
    pub(crate) fn one(&self) -> Result<Option<OsalId>, &[u32]>
        ensures { MatchResult result (λ on. self.now ≡ standing_on on) (λ ids. self.now ≡ ids.now) }
    {
        match &self.on {
            On::One(on) => Ok(*on),
            On::Each(ids) => Err(ids.as_slice()),
        }
    }
}

// Whether an object is among some, by its number.
fn is_among(ids: &[u32], id: OsalId) -> bool
    ensures { result ≡ is_among id ids.now }
{
    ids.iter().any(|on| *on == id.raw())
}
