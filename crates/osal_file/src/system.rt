//! A file system.

use osal_base::Name;

/// A file system: its label, and the point at which it is mounted. Its volume lies beside it.
#[derive(Drop)]
pub struct FileSystem {
    pub(crate) label: Name,
    pub(crate) mount: Option<Name>,
}
