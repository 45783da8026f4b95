//! Which file system stands behind the first name of a path.
ghost use Rattle.std.specs.Prelude.{◌≡◌, ◌<◌, ◌≤◌, IfOk, IfSome, None, length};
ghost use Rattle.std.specs.FinMap as map;
ghost use Rattle.std.specs.List.{position};
ghost use Rattle.osal_path.specs.Mounts.{resolve};
ghost use Rattle.osal_path.specs.Entries.{has_name};

use crate::{Trail, split};
use osal_base::{Name, OsalId, OutOfMemory, Status};
use std::alloc::Global;
use std::marker::Model;

/// The most mounts of a map.
const MOUNT_LIMIT: usize = 1024;

/// At most 1,024 names of mounts, each with the identifier of its file system.
///
/// A name is found by comparing it with each of these once at most.
#[derive(Drop)]
pub struct MountMap {
    mounts: Vec<(Name, OsalId)>,
}

impl Model for MountMap {
    ghost use Rattle.std.specs.Vec.{vec_capacity};
    ghost use Rattle.osal_path.specs.Mounts.{Mounts};
    ghost use Rattle.osal_path.specs.Entries.{mounts_code, mounts_of, IsSound};

    ghost Value = { Mounts };

    ghost coded = { mounts_code };

    ghost view = { λ a. mounts_of a.mounts.items };

    ghost invariant = { λ a. IsSound a.mounts.items (vec_capacity a.mounts) };
}

impl MountMap {
    /// No mounts, with room for as many as there may be. No other call takes memory.
    pub fn new(alloc: Global) -> Result<MountMap, OutOfMemory>
        ensures { IfOk result (λ made. made ≡ map.empty) }
    {
        Ok(MountMap {
            mounts: Vec::with_capacity(alloc, MOUNT_LIMIT)?,
        })
    }

    /// How many mounts there are.
    pub fn len(&self) -> u32
        ensures value { result ≡ map.len self.now }
        ensures few { result ≤ 1024 }
    {
        self.mounts.len() as u32
    }

    /// The file system of a mount.
    pub fn find(&self, name: &Name) -> Option<OsalId>
        ensures { result ≡ map.get self.now name.now }
    {
        let at = place_of(self.mounts.as_slice(), name)?;
        Some(self.mounts[at].1)
    }

    /// Adds a mount, for which there is room.
    pub fn add(&mut self, name: Name, id: OsalId)
        requires new_name { map.get self.old name ≡ None }
        requires room { map.len self.old < 1024 }
        ensures { self.new ≡ map.insert self.old name id }
    {
        self.mounts.push_reserved((name, id));
    }

    /// Takes a mount out, and gives its file system.
    pub fn remove(&mut self, name: &Name) -> Option<OsalId>
        ensures id { result ≡ map.get self.old name.now }
        ensures rest { self.new ≡ map.remove self.old name.now }
    {
        let at = place_of(self.mounts.as_slice(), name)?;
        let (_name, id) = self.mounts.remove(at);
        Some(id)
    }

    /// The file system that a path leads to, and the names there, which are none at its root.
    ///
    /// A path that `split` refuses is refused with the same status.
    pub fn resolve(&self, path: &[u8]) -> Result<(OsalId, Trail), Status>
        ensures { result ≡ resolve self.now path.now }
    {
        let mut trail = split(path)?;
        let mount = trail.take_first();
        match self.find(&mount) {
            Some(id) => Ok((id, trail)),
            None => Err(Status::FsErrPathInvalid),
        }
    }
}

// Where the mount stands.
fn place_of(mounts: &[(Name, OsalId)], name: &Name) -> Option<usize>
    ensures place { result ≡ position (has_name name.now) mounts.now }
    ensures within { IfSome result (λ at. at < length mounts.now) }
{
    mounts
        .iter()
        .position(|mount| name.as_slice() == mount.0.as_slice())
}
