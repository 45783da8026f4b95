//! Opening, reading, rewinding and closing directories.
ghost use Rattle.std.specs.Prelude.{◌≡◌, [], IfOk, OnErr};
ghost use Rattle.osal_base.specs.Reply.{replied, success};
ghost use Rattle.osal_volume.specs.Volume.{content_at, is_directory};
ghost use Rattle.osal_file.specs.Directories.{names_in, dir_open, dir_read, dir_rewind, dir_close};

use crate::{Files, OpenDirectory};
use osal_base::{Ack, Bytes, Name, OsalId, OutOfMemory, Room, Status};
use osal_slots::slot_among;
use osal_volume::{Kind, Volume};
use std::alloc::Global;

impl Files {
    /// `OS_DirectoryOpen`: opens the directory at a path, before the first of its names, and gives its identifier.
    ///
    /// It takes the memory for the names that the directory has now, once nothing else refuses it; they are read in the
    /// order of their bytes.
    ///
    /// Refused are, in this order, the faults of the path (`OS_FS_ERR_PATH_TOO_LONG`, `OS_FS_ERR_PATH_INVALID`,
    /// `OS_FS_ERR_NAME_TOO_LONG`), a path that leads to no mount (`OS_FS_ERR_PATH_INVALID`) or to no directory
    /// (`OS_ERROR`), and an open where no slot is free (`OS_ERR_NO_FREE_IDS`). It looks at each mount once at most, at each
    /// slot twice at most, and at each node of the volume, whose name is put in its place among those found before.
    pub fn dir_open(&mut self, alloc: Global, path: &Bytes) -> Result<Ack, OutOfMemory>
        ensures step { IfOk result (λ ack. (replied ack [], self.new) ≡ dir_open self.old path.now.bytes) }
        ensures kept { OnErr result (self.new ≡ self.old) }
        ensures asked_last { OnErr result ((dir_open self.old path.now.bytes).0.answer ≡ success.answer) }
    {
        let (system, trail) = match self.mounts.resolve(path.as_slice()) {
            Ok(to) => to,
            Err(fault) => return Ok(Ack::refused(fault)),
        };
        let slot = slot_among(self.volumes.as_slice(), system);
        let Some(volume) = &self.volumes[slot] else {
            return Ok(Ack::refused(Status::FsErrPathInvalid));
        };
        if !is_directory(volume, trail.names()) {
            return Ok(Ack::refused(Status::Error));
        }
        let Ok(id) = self.directories.peek_unnamed() else {
            return Ok(Ack::refused(Status::ErrNoFreeIds));
        };
        let names = names_in(volume, alloc, trail.names())?;
        let slot = slot_among(self.open_directories.as_slice(), id);
        self.open_directories[slot] = Some(OpenDirectory {
            system,
            trail,
            names,
            next: 0,
        });
        Ok(self.directories.create_unnamed(()))
    }

    /// `OS_DirectoryRead`: gives the next of a directory's names as bytes.
    ///
    /// Refused are, in this order, an identifier that is not active (`OS_ERR_INVALID_ID`), and a directory whose names
    /// were all read (`OS_ERROR`). The cost is constant.
    pub fn dir_read(&mut self, id: OsalId, room: &mut Room) -> Ack
        ensures { (replied result room.new, self.new) ≡ dir_read self.old id }
    {
        room.clear();
        if !self.directories.is_active(id) {
            return Ack::refused(Status::ErrInvalidId);
        }
        let slot = slot_among(self.open_directories.as_slice(), id);
        let Some(one) = &self.open_directories[slot] else {
            return Ack::refused(Status::ErrInvalidId);
        };
        let Some(name) = one.names.get(one.next) else {
            return Ack::refused(Status::Error);
        };
        room.append(name.as_slice());
        if let Some(one) = &mut self.open_directories[slot] {
            one.next += 1;
        }
        Ack::success()
    }

    /// `OS_DirectoryRewind`: lets a directory be read from the first of its names on again.
    ///
    /// The names stay those that it had when it was opened. Refused is an identifier that is not active
    /// (`OS_ERR_INVALID_ID`). The cost is constant.
    pub fn dir_rewind(&mut self, id: OsalId) -> Ack
        ensures { (replied result [], self.new) ≡ dir_rewind self.old id }
    {
        if !self.directories.is_active(id) {
            return Ack::refused(Status::ErrInvalidId);
        }
        let slot = slot_among(self.open_directories.as_slice(), id);
        match &mut self.open_directories[slot] {
            None => Ack::refused(Status::ErrInvalidId),
            Some(one) => {
                one.next = 0;
                Ack::success()
            }
        }
    }

    /// `OS_DirectoryClose`: closes a directory that nobody holds, and gives the memory of its names back.
    ///
    /// Refused are, in this order, an identifier that is not active (`OS_ERR_INVALID_ID`), and a directory that somebody
    /// holds (`OS_ERR_OBJECT_IN_USE`). The cost is constant.
    pub fn dir_close(&mut self, id: OsalId) -> Ack
        ensures { (replied result [], self.new) ≡ dir_close self.old id }
    {
        if !self.directories.is_active(id) {
            return Ack::refused(Status::ErrInvalidId);
        }
        if self.directories.is_held(id) {
            return Ack::refused(Status::ErrObjectInUse);
        }
        let slot = slot_among(self.open_directories.as_slice(), id);
        self.open_directories[slot] = None;
        self.directories.delete(id)
    }
}

// Whether a directory stands at a path.
fn is_directory(volume: &Volume, at: &[Name]) -> bool
    ensures { result ≡ is_directory (content_at volume.now at.now) }
{
    match volume.kind(at) {
        Some(Kind::Dir) => true,
        Some(Kind::File(_)) => false,
        None => false,
    }
}

// The names in the directory at a path.
#[tactic(auto, using(crate::proofs::Listings::names_are))]
fn names_in(volume: &Volume, alloc: Global, at: &[Name]) -> Result<Vec<Name>, OutOfMemory>
    ensures { IfOk result (λ names. names.items ≡ names_in volume.now at.now) }
{
    match volume.list(alloc, at) {
        Ok(names) => Ok(names),
        Err(_) => Err(OutOfMemory),
    }
}
