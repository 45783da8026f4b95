//! Where a file's bytes are.
ghost use Rattle.std.specs.Prelude.{◌≡◌, ◌<◌, IfOk};
ghost use Rattle.osal_tree.specs.Nodes.{node_at, IsTree};
ghost use Rattle.osal_tree.specs.Paths.{parent_of};
ghost use Rattle.osal_volume.specs.Copies.{is_one_file};
ghost use Rattle.osal_volume.specs.Faults.{file_number};

use crate::fault::VolFault;
use osal_base::Name;
use osal_tree::{Kind, Tree};

/// The number of the file at a path.
pub(crate) fn file_number(tree: &Tree, at: &[Name]) -> Result<usize, VolFault>
    ensures value { result ≡ file_number (node_at tree.now at.now) }
    ensures few { IfOk result (λ number. number < 256) }
    ensures tree { IsTree tree.now }
{
    match tree.kind(at) {
        None => Err(VolFault::NotFound),
        Some(Kind::Directory) => Err(VolFault::WrongKind),
        Some(Kind::File(number)) => Ok(usize::from(number)),
    }
}

/// Whether one file stands at both paths.
pub(crate) fn is_one_file(tree: &Tree, at: &[Name], other: &[Name]) -> bool
    ensures value { result ≡ is_one_file (node_at tree.now at.now) (node_at tree.now other.now) }
    ensures tree { IsTree tree.now }
{
    match (tree.kind(at), tree.kind(other)) {
        (Some(Kind::File(number)), Some(Kind::File(another))) => number == another,
        _ => false,
    }
}

/// The path of what a path stands in; the root counts as its own.
pub(crate) fn parent_of(at: &[Name]) -> &[Name]
    ensures { result.now ≡ parent_of at.now }
{
    match at.split_last() {
        None => at,
        Some((_, above)) => above,
    }
}
