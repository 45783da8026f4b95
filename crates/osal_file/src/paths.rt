//! Where a path leads, what stands in the slot of an identifier, and what is open at a path.
ghost use Rattle.std.specs.Prelude.{◌≡◌, ◌==◌, ◌&&◌};
ghost use Rattle.std.specs.List.{list_any};
ghost use Rattle.osal_path.specs.Mounts.{resolve};
ghost use Rattle.osal_tree.specs.Paths.{is_within};
ghost use Rattle.osal_file.specs.declared.opened.OpenFile.{OpenFile};
ghost use Rattle.osal_file.specs.Opened.{Directory};
ghost use Rattle.osal_file.specs.Files.{passes, is_same};
ghost use Rattle.osal_file.specs.Files.{is_file_open, is_directory_open, is_open_within};

use crate::{Files, OpenDirectory, OpenFile};
use osal_base::{Bytes, Name, OsalId, Status};
use osal_path::Trail;

impl Files {
    /// The file system that a path leads to, and the names there.
    pub(crate) fn resolve(&self, path: &Bytes) -> Result<(OsalId, Trail), Status>
        ensures { result ≡ resolve self.now.mounts path.now.bytes }
    {
        self.mounts.resolve(path.as_slice())
    }

    /// Whether the file at a path is open. It looks at each place of an open file.
    pub(crate) fn is_file_open(&self, id: OsalId, at: &[Name]) -> bool
        ensures { result ≡ is_file_open self.now id at.now }
    {
        self.open_files
            .iter()
            .any(|place| is_file_at(place, id, at))
    }

    /// Whether the directory at a path is open. It looks at each place of an open directory.
    pub(crate) fn is_directory_open(&self, id: OsalId, at: &[Name]) -> bool
        ensures { result ≡ is_directory_open self.now id at.now }
    {
        self.open_directories
            .iter()
            .any(|place| is_directory_at(place, id, at))
    }

    /// Whether a file or a directory at a path or below it is open. It looks at each place of both.
    pub(crate) fn is_open_within(&self, id: OsalId, at: &[Name]) -> bool
        ensures { result ≡ is_open_within self.now id at.now }
    {
        some_file_within(&self.open_files, id, at)
            || some_directory_within(&self.open_directories, id, at)
    }
}

fn some_file_within(places: &[Option<OpenFile>], id: OsalId, at: &[Name]) -> bool
    ensures { result
        ≡ list_any (passes (λ (file : OpenFile). (file.system == id) && is_within at.now file.trail)) places.now }
{
    places.iter().any(|place| is_file_within(place, id, at))
}

fn some_directory_within(places: &[Option<OpenDirectory>], id: OsalId, at: &[Name]) -> bool
    ensures { result
        ≡ list_any (passes (λ (one : Directory). (one.system == id) && is_within at.now one.trail)) places.now }
{
    places
        .iter()
        .any(|place| is_directory_within(place, id, at))
}

fn is_file_at(place: &Option<OpenFile>, id: OsalId, at: &[Name]) -> bool
    ensures { result ≡ passes (λ (file : OpenFile). (file.system == id) && is_same at.now file.trail) place.now }
{
    match place {
        None => false,
        Some(file) => file.system == id && is_same(at, file.trail.names()),
    }
}

fn is_directory_at(place: &Option<OpenDirectory>, id: OsalId, at: &[Name]) -> bool
    ensures { result ≡ passes (λ (one : Directory). (one.system == id) && is_same at.now one.trail) place.now }
{
    match place {
        None => false,
        Some(one) => one.system == id && is_same(at, one.trail.names()),
    }
}

fn is_file_within(place: &Option<OpenFile>, id: OsalId, at: &[Name]) -> bool
    ensures { result ≡ passes (λ (file : OpenFile). (file.system == id) && is_within at.now file.trail) place.now }
{
    match place {
        None => false,
        Some(file) => file.system == id && is_within(at, file.trail.names()),
    }
}

fn is_directory_within(place: &Option<OpenDirectory>, id: OsalId, at: &[Name]) -> bool
    ensures { result ≡ passes (λ (one : Directory). (one.system == id) && is_within at.now one.trail) place.now }
{
    match place {
        None => false,
        Some(one) => one.system == id && is_within(at, one.trail.names()),
    }
}

// Whether two paths have the same names.
fn is_same(at: &[Name], other: &[Name]) -> bool
    ensures { result ≡ is_same at.now other.now }
{
    if at.len() != other.len() {
        return false;
    }
    is_within(at, other)
}

// Whether a path is the upper one, or leads on from it.
fn is_within(upper: &[Name], at: &[Name]) -> bool
    ensures { result ≡ is_within upper.now at.now }
{
    for i in 0..upper.len() {
        if i >= at.len() {
            return false;
        }
        if upper[i].as_slice() != at[i].as_slice() {
            return false;
        }
    }
    true
}
