//! The calls on files and directories by their paths.
//!
//! The faults of a path are those of its names (`OS_FS_ERR_PATH_TOO_LONG`, `OS_FS_ERR_NAME_TOO_LONG`,
//! `OS_FS_ERR_PATH_INVALID`), and that nothing is mounted where it leads (`OS_FS_ERR_PATH_INVALID`).
ghost use Rattle.std.specs.Prelude.{◌≡◌, ◌==◌, not, is_none, if◌then◌else◌, [], IfOk, IfErr};
ghost use Rattle.osal_base.specs.Reply.{replied, refusal, success};
ghost use Rattle.osal_base.specs.declared.status.Status.TheVariants as status;
ghost use Rattle.osal_volume.specs.Volume.{content_at, is_directory};
ghost use Rattle.osal_volume.specs.Steps.{file_fault, mkdir_step, remove_step, rmdir_step};
ghost use Rattle.osal_volume.specs.Renames.{rename_step};
ghost use Rattle.osal_file.specs.Files.{at_path, in_volume, on_volume, refused};
ghost use Rattle.osal_file.specs.Files.{is_file_open, is_directory_open, is_open_within};
ghost use Rattle.osal_file.specs.Nodes.{unless_open, told, is_removable, remove, rename, stat, mkdir, rmdir};

mod copies;

use crate::Files;
use osal_base::{Ack, Bytes, Name, OsalId, Room, Status};
use osal_path::Trail;
use osal_slots::{in_slot, slot_among};
use osal_volume::{Kind, VolFault, Volume};

impl Files {
    /// `OS_remove`: removes a file, and gives its blocks back.
    ///
    /// Refused are, in this order, the faults of a path, what is no file (`OS_ERROR`), and a file that is open
    /// (`OS_ERR_OBJECT_IN_USE`). It looks at each stream once, goes a few times over the volume's nodes for each name,
    /// and gives the blocks back one by one.
    pub fn remove(&mut self, path: &Bytes) -> Ack
        ensures { (replied result [], self.new) ≡ remove self.old path.now.bytes }
    {
        match self.resolve(path) {
            Ok((id, trail)) => self.remove_at(id, trail.names()),
            Err(fault) => Ack::refused(fault),
        }
    }

    fn remove_at(&mut self, id: OsalId, at: &[Name]) -> Ack
        ensures { (replied result [], self.new) ≡ in_volume self.old id (λ volume.
            unless_open self.old (is_file_open self.old id at.now) id (remove_step volume at.now)) }
    {
        let opened = self.is_file_open(id, at);
        let slot = slot_among(&self.volumes, id);
        match &mut self.volumes[slot] {
            None => Ack::refused(Status::FsErrPathInvalid),
            Some(volume) => {
                if !is_file(volume, at) {
                    return Ack::refused(Status::Error);
                }
                if opened {
                    return Ack::refused(Status::ErrObjectInUse);
                }
                done(volume.remove(at))
            }
        }
    }

    /// `OS_rename`: moves a file, or a directory with all that is below it, within its volume.
    ///
    /// Refused are, in this order, the faults of each path; two paths on two volumes, and what the volume may not move
    /// (`OS_ERROR`): from where nothing stands, to where something stands or no directory is to stand in, the root, and
    /// a directory below itself; and what is open or has something open in it (`OS_ERR_OBJECT_IN_USE`). It looks at
    /// each stream and each open directory once, and goes a few times over the volume's nodes for each name. No byte is
    /// copied.
    pub fn rename(&mut self, path: &Bytes, to: &Bytes) -> Ack
        ensures { (replied result [], self.new) ≡ rename self.old path.now.bytes to.now.bytes }
    {
        match self.resolve(path) {
            Ok((id, trail)) => self.rename_from(id, &trail, to),
            Err(fault) => Ack::refused(fault),
        }
    }

    fn rename_from(&mut self, id: OsalId, from: &Trail, to: &Bytes) -> Ack
        ensures { (replied result [], self.new) ≡ in_volume self.old id (λ volume.
            at_path self.old to.now.bytes (λ other there target. if not (other == id) then refused self.old status.Error
            else unless_open self.old (is_open_within self.old id from.now) id (rename_step volume from.now target))) }
    {
        let Some(_) = in_slot(&self.volumes, id) else {
            return Ack::refused(Status::FsErrPathInvalid);
        };
        match self.resolve(to) {
            Ok((other, trail)) => self.rename_to(id, from, other, &trail),
            Err(fault) => Ack::refused(fault),
        }
    }

    fn rename_to(&mut self, id: OsalId, from: &Trail, other: OsalId, to: &Trail) -> Ack
        ensures { (replied result [], self.new) ≡ in_volume self.old id (λ volume.
            in_volume self.old other (λ there. if not (other == id) then refused self.old status.Error
            else unless_open self.old (is_open_within self.old id from.now) id (rename_step volume from.now to.now))) }
    {
        let Some(_) = in_slot(&self.volumes, id) else {
            return Ack::refused(Status::FsErrPathInvalid);
        };
        let Some(_) = in_slot(&self.volumes, other) else {
            return Ack::refused(Status::FsErrPathInvalid);
        };
        if other != id {
            return Ack::refused(Status::Error);
        }
        self.rename_at(id, from.names(), to.names())
    }

    fn rename_at(&mut self, id: OsalId, from: &[Name], to: &[Name]) -> Ack
        ensures { (replied result [], self.new) ≡ in_volume self.old id (λ volume.
            unless_open self.old (is_open_within self.old id from.now) id (rename_step volume from.now to.now)) }
    {
        let opened = self.is_open_within(id, from);
        let slot = slot_among(&self.volumes, id);
        match &mut self.volumes[slot] {
            None => Ack::refused(Status::FsErrPathInvalid),
            Some(volume) => {
                if volume.rename_fault(from, to).is_some() {
                    return Ack::refused(Status::Error);
                }
                if opened {
                    return Ack::refused(Status::ErrObjectInUse);
                }
                done(volume.rename(from, to))
            }
        }
    }

    /// `OS_stat`: gives the length of a file in bytes, and the word `file`; of a directory 0, and `dir`.
    ///
    /// Refused are, in this order, the faults of a path, and a path at which nothing stands (`OS_ERROR`). It goes once
    /// over the volume's nodes for each name.
    pub fn stat(&mut self, path: &Bytes, room: &mut Room) -> Ack
        ensures { (replied result room.new, self.new) ≡ stat self.old path.now.bytes }
    {
        room.clear();
        match self.resolve(path) {
            Ok((id, trail)) => self.stat_at(id, trail.names(), room),
            Err(fault) => Ack::refused(fault),
        }
    }

    fn stat_at(&self, id: OsalId, at: &[Name], room: &mut Room) -> Ack
        requires { room.old ≡ [] }
        ensures { (replied result room.new, self.now)
            ≡ in_volume self.now id (λ volume. told self.now (content_at volume at.now)) }
    {
        let Some(volume) = in_slot(&self.volumes, id) else {
            return Ack::refused(Status::FsErrPathInvalid);
        };
        match volume.kind(at) {
            None => Ack::refused(Status::Error),
            Some(Kind::Dir) => {
                room.append(b"dir");
                Ack::gives(0)
            }
            Some(Kind::File(length)) => {
                room.append(b"file");
                Ack::gives(u64::from(length))
            }
        }
    }

    /// `OS_mkdir`: makes a directory, which takes a block.
    ///
    /// Refused are, in this order, the faults of a path, and what the volume may not make (`OS_ERROR`): where something
    /// stands, where no directory is to stand in, and where a node or a block is missing. It goes a few times over the
    /// volume's nodes for each name.
    pub fn mkdir(&mut self, path: &Bytes) -> Ack
        ensures { (replied result [], self.new) ≡ mkdir self.old path.now.bytes }
    {
        match self.resolve(path) {
            Ok((id, trail)) => self.mkdir_at(id, trail.names()),
            Err(fault) => Ack::refused(fault),
        }
    }

    fn mkdir_at(&mut self, id: OsalId, at: &[Name]) -> Ack
        ensures { (replied result [], self.new)
            ≡ in_volume self.old id (λ volume. on_volume self.old id (mkdir_step volume at.now)) }
    {
        let slot = slot_among(&self.volumes, id);
        match &mut self.volumes[slot] {
            None => Ack::refused(Status::FsErrPathInvalid),
            Some(volume) => done(volume.mkdir(at)),
        }
    }

    /// `OS_rmdir`: removes an empty directory, and gives its block back.
    ///
    /// Refused are, in this order, the faults of a path, what is no directory and the root (`OS_ERROR`), a directory
    /// that is open (`OS_ERR_OBJECT_IN_USE`), and one that is not empty (`OS_ERROR`). It looks at each open directory
    /// once, and goes a few times over the volume's nodes for each name.
    pub fn rmdir(&mut self, path: &Bytes) -> Ack
        ensures { (replied result [], self.new) ≡ rmdir self.old path.now.bytes }
    {
        match self.resolve(path) {
            Ok((id, trail)) => self.rmdir_at(id, trail.names()),
            Err(fault) => Ack::refused(fault),
        }
    }

    fn rmdir_at(&mut self, id: OsalId, at: &[Name]) -> Ack
        ensures { (replied result [], self.new) ≡ in_volume self.old id (λ volume.
            if not (is_removable volume at.now) then refused self.old status.Error
            else (if is_directory_open self.old id at.now then refused self.old status.ErrObjectInUse
            else on_volume self.old id (rmdir_step volume at.now))) }
    {
        let opened = self.is_directory_open(id, at);
        let slot = slot_among(&self.volumes, id);
        match &mut self.volumes[slot] {
            None => Ack::refused(Status::FsErrPathInvalid),
            Some(volume) => {
                if !is_removable(volume, at) {
                    return Ack::refused(Status::Error);
                }
                if opened {
                    return Ack::refused(Status::ErrObjectInUse);
                }
                done(volume.rmdir(at))
            }
        }
    }
}

// The answer of a call on a volume.
fn done(answer: Result<(), VolFault>) -> Ack
    ensures done { IfOk answer (λ _. replied result [] ≡ success) }
    ensures refused { IfErr answer (λ _. replied result [] ≡ refusal status.Error) }
{
    match answer {
        Ok(()) => Ack::success(),
        Err(_) => Ack::refused(Status::Error),
    }
}

// Whether a file stands at a path.
fn is_file(volume: &Volume, at: &[Name]) -> bool
    ensures { result ≡ is_none (file_fault (content_at volume.now at.now)) }
{
    matches!(volume.kind(at), Some(Kind::File(_)))
}

// Whether a directory other than the root stands at a path.
fn is_removable(volume: &Volume, at: &[Name]) -> bool
    ensures { result ≡ is_removable volume.now at.now }
{
    is_directory(volume, at) && !at.is_empty()
}

fn is_directory(volume: &Volume, at: &[Name]) -> bool
    ensures { result ≡ is_directory (content_at volume.now at.now) }
{
    matches!(volume.kind(at), Some(Kind::Dir))
}
