//! What is open: files and directories.

use osal_base::{Access, Name, OsalId};
use osal_path::Trail;
use std::marker::Model;

/// An open file: its file system, where it stands there, the place in it, and what it is opened for.
#[derive(Drop)]
pub struct OpenFile {
    pub(crate) system: OsalId,
    pub(crate) trail: Trail,
    pub(crate) place: u32,
    pub(crate) access: Access,
}

/// An open directory: where it stands, the names that it had when it was opened, and how many of them were read.
#[derive(Drop)]
pub struct OpenDirectory {
    pub(crate) system: OsalId,
    pub(crate) trail: Trail,
    pub(crate) names: Vec<Name>,
    pub(crate) next: usize,
}

impl Model for OpenDirectory {
    ghost use Rattle.osal_file.specs.Opened.{Directory};

    ghost Value = { Directory };

    ghost view = { λ a. record { system = a.system; trail = a.trail; names = a.names.items; next = a.next } };

    ghost invariant = { λ a. Unit {0} };
}
