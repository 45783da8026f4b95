//! The call that copies a file.
ghost use Rattle.std.specs.Prelude.{◌≡◌, ◌≢◌, ◌<◌, length, slice_index_or, slice_set, [], Some, None};
ghost use Rattle.osal_base.specs.Reply.{replied};
ghost use Rattle.osal_volume.specs.Volume.{VolumeState};
ghost use Rattle.osal_volume.specs.Copies.{copy_step, copy_from_step};
ghost use Rattle.osal_file.specs.Files.{at_path, in_volume, slot_among, is_file_open};
ghost use Rattle.osal_file.specs.Nodes.{unless_open, is_one_volume, copied, cp};

use super::done;
use crate::Files;
use osal_base::{Ack, Bytes, Name, OsalId, Status};
use osal_path::Trail;
use osal_slots::{in_slot, slot_among};
use osal_volume::Volume;

impl Files {
    /// `OS_cp`: copies a file, on its volume or to another. A file that stands at the other path gets its bytes.
    ///
    /// Refused are, in this order, the faults of each path as at `remove`; what the volume may not copy (`OS_ERROR`):
    /// what is no file, to where no directory is to stand in, onto a directory or onto itself, or where blocks or nodes
    /// are missing; and a target that is open (`OS_ERR_OBJECT_IN_USE`). It looks at each stream once, goes a few times
    /// over the nodes of both volumes for each name, and copies each byte once.
    pub fn cp(&mut self, path: &Bytes, to: &Bytes) -> Ack
        ensures { (replied result [], self.new) ≡ cp self.old path.now.bytes to.now.bytes }
    {
        match self.resolve(path) {
            Ok((id, trail)) => self.cp_from(id, &trail, to),
            Err(fault) => Ack::refused(fault),
        }
    }

    fn cp_from(&mut self, id: OsalId, from: &Trail, to: &Bytes) -> Ack
        ensures { (replied result [], self.new) ≡ in_volume self.old id (λ volume.
            at_path self.old to.now.bytes (λ other there target.
            unless_open self.old (is_file_open self.old other target) other
            (copied (is_one_volume self.old id other) volume from.now there target))) }
    {
        let Some(_) = in_slot(&self.volumes, id) else {
            return Ack::refused(Status::FsErrPathInvalid);
        };
        match self.resolve(to) {
            Ok((other, trail)) => self.cp_to(id, from, other, &trail),
            Err(fault) => Ack::refused(fault),
        }
    }

    fn cp_to(&mut self, id: OsalId, from: &Trail, other: OsalId, to: &Trail) -> Ack
        ensures { (replied result [], self.new) ≡ in_volume self.old id (λ volume.
            in_volume self.old other (λ there. unless_open self.old (is_file_open self.old other to.now) other
            (copied (is_one_volume self.old id other) volume from.now there to.now))) }
    {
        if slot_among(&self.volumes, other) == slot_among(&self.volumes, id) {
            self.cp_within(other, from.names(), to.names())
        } else {
            self.cp_across(id, from.names(), other, to.names())
        }
    }

    fn cp_within(&mut self, id: OsalId, from: &[Name], to: &[Name]) -> Ack
        ensures { (replied result [], self.new) ≡ in_volume self.old id (λ volume.
            unless_open self.old (is_file_open self.old id to.now) id (copy_step volume from.now to.now)) }
    {
        let opened = self.is_file_open(id, to);
        let slot = slot_among(&self.volumes, id);
        match &mut self.volumes[slot] {
            None => Ack::refused(Status::FsErrPathInvalid),
            Some(volume) => {
                if volume.copy_fault(from, to).is_some() {
                    return Ack::refused(Status::Error);
                }
                if opened {
                    return Ack::refused(Status::ErrObjectInUse);
                }
                done(volume.copy(from, to))
            }
        }
    }

    fn cp_across(&mut self, id: OsalId, from: &[Name], other: OsalId, to: &[Name]) -> Ack
        requires { slot_among self.old.volumes other ≢ slot_among self.old.volumes id }
        ensures { (replied result [], self.new) ≡ in_volume self.old id (λ volume.
            in_volume self.old other (λ there. unless_open self.old (is_file_open self.old other to.now) other
            (copy_from_step there volume from.now to.now))) }
    {
        let opened = self.is_file_open(other, to);
        let home = slot_among(&self.volumes, id);
        let slot = slot_among(&self.volumes, other);
        let Some(source) = &self.volumes[home] else {
            return Ack::refused(Status::FsErrPathInvalid);
        };
        let Some(target) = &self.volumes[slot] else {
            return Ack::refused(Status::FsErrPathInvalid);
        };
        if target.copy_from_fault(source, from, to).is_some() {
            return Ack::refused(Status::Error);
        }
        if opened {
            return Ack::refused(Status::ErrObjectInUse);
        }
        copy_across(&mut self.volumes, home, from, slot, to);
        Ack::success()
    }
}

// Copies a file of the volume in one slot to the volume in another. The one is out of its slot while the other is lent.
fn copy_across(volumes: &mut [Option<Volume>], home: usize, from: &[Name], slot: usize, to: &[Name])
    requires home { home < length volumes.old }
    requires slot { slot < length volumes.old }
    requires apart { slot ≢ home }
    ensures { (volume there : VolumeState) → slice_index_or volumes.old home None ≡ Some volume →
        slice_index_or volumes.old slot None ≡ Some there →
        volumes.new ≡ slice_set volumes.old slot (Some (copy_from_step there volume from.now to.now).1) }
{
    let Some(source) = volumes[home].take() else {
        return;
    };
    let Some(target) = &mut volumes[slot] else {
        volumes[home] = Some(source);
        return;
    };
    let _ = target.copy_from(&source, from, to);
    volumes[home] = Some(source);
}
