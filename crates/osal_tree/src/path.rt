//! Paths: the names from the root down.
ghost use Rattle.std.specs.Prelude.{◌≡◌};
ghost use Rattle.osal_tree.specs.Paths.{is_within, is_below, parent_of};

use osal_base::Name;

/// The path of the directory that a path stands in; the root counts as its own.
pub(crate) fn parent_of(at: &[Name]) -> &[Name]
    ensures { result.now ≡ parent_of at.now }
{
    match at.split_last() {
        None => at,
        Some((_, above)) => above,
    }
}

/// Whether a path leads on from the upper one.
pub(crate) fn is_below(upper: &[Name], at: &[Name]) -> bool
    ensures { result ≡ is_below upper.now at.now }
{
    is_within(upper, at) && upper.len() < at.len()
}

fn is_within(upper: &[Name], at: &[Name]) -> bool
    ensures { result ≡ is_within upper.now at.now }
{
    for i in 0..upper.len() {
        if i >= at.len() {
            return false;
        }
        if upper[i].as_slice() != at[i].as_slice() {
            return false;
        }
    }
    true
}
