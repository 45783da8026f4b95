//! What stands at a path, and why a call on a volume is refused.
ghost use Rattle.std.specs.Prelude.{◌≡◌};
ghost use Rattle.osal_volume.specs.Faults.{vol_fault, answered};

use osal_tree::TreeFault;

/// What stands at a path.
#[derive(Clone, Copy, Debug, PartialEq, Eq)]
pub enum Kind {
    /// A file of so many bytes.
    File(u32),
    /// A directory.
    Dir,
}

/// Why a call on a volume was refused.
#[derive(Clone, Copy, Debug, PartialEq, Eq)]
pub enum VolFault {
    /// Nothing stands at the path, or what should be its directory is none.
    NotFound,
    /// A file stands where a directory is wanted, or the other way round, or the root cannot be meant.
    WrongKind,
    /// There is no free block, or there are 256 nodes.
    NoSpace,
    /// Something stands at the path already.
    Exists,
    /// Something stands in the directory.
    NotEmpty,
    /// There was no memory for the answer.
    OutOfMemory,
}

/// What a volume answers where its tree refuses a call.
pub(crate) fn vol_fault(fault: TreeFault) -> VolFault
    ensures { result ≡ vol_fault fault }
{
    match fault {
        TreeFault::NotFound => VolFault::NotFound,
        TreeFault::WrongKind => VolFault::WrongKind,
        TreeFault::NoSpace => VolFault::NoSpace,
        TreeFault::Exists => VolFault::Exists,
        TreeFault::NotEmpty => VolFault::NotEmpty,
        TreeFault::OutOfMemory => VolFault::OutOfMemory,
    }
}

/// What a volume answers where its tree gave this answer.
pub(crate) fn answered(answer: Result<u8, TreeFault>) -> Result<(), VolFault>
    ensures { result ≡ answered answer }
{
    match answer {
        Ok(_) => Ok(()),
        Err(fault) => Err(vol_fault(fault)),
    }
}
