//! The calls on files that are open.
ghost use Rattle.std.specs.Prelude.{◌≡◌, ◌≤◌, ◌||◌, ◌&&◌, not, pos, if◌then◌else◌, [], option_copied, IfSome};
ghost use Rattle.osal_base.specs.Reply.{replied};
ghost use Rattle.osal_base.specs.declared.reply.Answer.TheVariants as answer;
ghost use Rattle.osal_base.specs.declared.status.Status.TheVariants as status;
ghost use Rattle.osal_volume.specs.Volume.{content_at};
ghost use Rattle.osal_file.specs.Files.{in_slot, in_volume, refused};
ghost use Rattle.osal_file.specs.Streams.{truncates, may_write, is_unopened, file_opened, open_file, moved_to};
ghost use Rattle.osal_file.specs.Streams.{read, write, lseek, close};

mod opening;
mod places;

use crate::{Files, OpenFile};
use opening::{is_unopened, may_read, may_write, open_volume, truncates};
use osal_base::{Access, Ack, Answer, Bytes, OpenFlags, OsalId, Room, Status, Whence};
use osal_path::Trail;
use osal_slots::{in_slot, slot_among};
use osal_volume::Volume;
use places::{placed, read_from, seeks_from, write_to};

/// The most bytes of a read.
const READ_LIMIT: u32 = 1024;

/// The most bytes of a write.
const WRITE_LIMIT: usize = 4096;

impl Files {
    /// `OS_OpenCreate`: opens a file, at its start, under the identifier that its stream gets, and gives that.
    ///
    /// The flags may make a file that is missing, without bytes, and take the bytes of one that is there. Refused are,
    /// in this order, the faults of a path as at `remove`; what may not be opened so (`OS_ERROR`): a directory, a file
    /// that is missing and is not or cannot be made, an open that takes the bytes and may not write; and an open for
    /// which there is no identifier (`OS_ERR_NO_FREE_IDS`). It goes a few times over the volume's nodes for each name.
    pub fn open_file(
        &mut self,
        path: &Bytes,
        flags: OpenFlags,
        access: Access,
        stream: Option<OsalId>,
    ) -> Ack
        ensures { (replied result [], self.new) ≡ open_file self.old path.now.bytes flags access stream }
    {
        match self.resolve(path) {
            Ok((id, trail)) => self.open_at(id, trail, flags, access, stream),
            Err(fault) => Ack::refused(fault),
        }
    }

    fn open_at(
        &mut self,
        id: OsalId,
        trail: Trail,
        flags: OpenFlags,
        access: Access,
        stream: Option<OsalId>,
    ) -> Ack
        ensures { (replied result [], self.new) ≡ in_volume self.old id (λ volume.
            if is_unopened volume trail flags (content_at volume trail) || (truncates flags && not (may_write access))
            then refused self.old status.Error
            else file_opened self.old id volume trail flags access stream) }
    {
        let slot = slot_among(&self.volumes, id);
        let Some(volume) = &mut self.volumes[slot] else {
            return Ack::refused(Status::FsErrPathInvalid);
        };
        if is_unopened(volume, trail.names(), flags) || (truncates(flags) && !may_write(access)) {
            return Ack::refused(Status::Error);
        }
        let Some(stream) = stream else {
            return Ack::refused(Status::ErrNoFreeIds);
        };
        open_volume(volume, trail.names(), flags);
        let place = slot_among(&self.open_files, stream);
        self.open_files[place] = Some(OpenFile {
            system: id,
            trail,
            place: 0,
            access,
        });
        Ack::gives(u64::from(stream.raw()))
    }

    /// `OS_read` of a file: reads at most `n` bytes from its place on, and moves the place behind them.
    ///
    /// The answer's code says how many they are: 0 at the end of the file and past it. Refused are, in this order, a
    /// count of none or above 1,024 (`OS_ERR_INVALID_SIZE`), a stream without a file (`OS_ERR_INVALID_ID`), and a file
    /// that is opened to write alone (`OS_ERROR`). It goes twice over the volume's nodes for each name of the file's
    /// path, once over the file's blocks before the place, and copies each byte once.
    pub fn read(&mut self, stream: OsalId, n: u32, room: &mut Room) -> Ack
        ensures { (replied result room.new, self.new) ≡ read self.old stream n }
    {
        room.clear();
        if n == 0 || n > READ_LIMIT {
            return Ack::refused(Status::ErrInvalidSize);
        }
        let Some(file) = self.file_of(stream) else {
            return Ack::refused(Status::ErrInvalidId);
        };
        if !may_read(file.access) {
            return Ack::refused(Status::Error);
        }
        let Some(volume) = self.volume_of(file.system) else {
            return Ack::refused(Status::FsErrPathInvalid);
        };
        match read_from(volume, file.trail.names(), file.place, n, room) {
            Err(_) => Ack::refused(Status::Error),
            Ok((count, behind)) => {
                self.move_to(stream, behind);
                counts(count)
            }
        }
    }

    /// `OS_write` of a file: writes the bytes of a payload from its place on, and moves the place behind them.
    ///
    /// Where not all fit on the volume, the first that do are written; the answer's code says how many they are. Bytes
    /// between the end of the file and the place become zero bytes. Refused are, in this order, a payload of no bytes
    /// or above 4,096 (`OS_ERR_INVALID_SIZE`), a stream without a file (`OS_ERR_INVALID_ID`), a file that is opened to
    /// read alone, and a volume with no room for one byte (both `OS_ERROR`). It goes twice over the volume's nodes for
    /// each name of the file's path, once over the file's blocks before the place, and writes each byte once.
    pub fn write(&mut self, stream: OsalId, payload: &Bytes) -> Ack
        ensures { (replied result [], self.new) ≡ write self.old stream payload.now.bytes }
    {
        let payload = payload.as_slice();
        if payload.is_empty() || payload.len() > WRITE_LIMIT {
            return Ack::refused(Status::ErrInvalidSize);
        }
        let Some(file) = in_slot(&self.open_files, stream) else {
            return Ack::refused(Status::ErrInvalidId);
        };
        if !may_write(file.access) {
            return Ack::refused(Status::Error);
        }
        let home = slot_among(&self.volumes, file.system);
        let Some(volume) = &mut self.volumes[home] else {
            return Ack::refused(Status::FsErrPathInvalid);
        };
        match write_to(volume, file.trail.names(), file.place, payload) {
            Err(_) => Ack::refused(Status::Error),
            Ok((count, behind)) => {
                self.move_to(stream, behind);
                counts(count)
            }
        }
    }

    /// `OS_lseek` of a file: moves its place, by a count of bytes from the start, from the place or from the end.
    ///
    /// The answer's code is the place, which may lie past the end. Refused are, in this order, a stream without a file
    /// (`OS_ERR_INVALID_ID`), and a place below 0 or above 2,147,483,647 (`OS_ERROR`). From the end it goes once over
    /// the volume's nodes for each name of the file's path; else the cost is constant.
    pub fn lseek(&mut self, stream: OsalId, offset: i64, from: Whence) -> Ack
        ensures { (replied result [], self.new) ≡ lseek self.old stream offset from }
    {
        let Some(file) = self.file_of(stream) else {
            return Ack::refused(Status::ErrInvalidId);
        };
        let Some(volume) = self.volume_of(file.system) else {
            return Ack::refused(Status::FsErrPathInvalid);
        };
        match placed(seeks_from(from, file, volume), offset) {
            None => Ack::refused(Status::Error),
            Some(place) => {
                self.move_to(stream, place);
                counts(place)
            }
        }
    }

    /// `OS_close` of a file: the stream has no file any more. It is not refused, and its cost is constant.
    pub fn close(&mut self, stream: OsalId) -> Ack
        ensures { (replied result [], self.new) ≡ close self.old stream }
    {
        let slot = slot_among(&self.open_files, stream);
        self.open_files[slot] = None;
        Ack::success()
    }

    // The file of a stream.
    fn file_of(&self, stream: OsalId) -> Option<&OpenFile>
        ensures { option_copied result ≡ in_slot self.now.open_files stream }
    {
        in_slot(&self.open_files, stream)
    }

    // The volume of a file system.
    fn volume_of(&self, id: OsalId) -> Option<&Volume>
        ensures { option_copied result ≡ in_slot self.now.volumes id }
    {
        in_slot(&self.volumes, id)
    }

    // The file of a stream is at another place from now on.
    fn move_to(&mut self, stream: OsalId, place: u32)
        ensures { IfSome (in_slot self.old.open_files stream) (λ file. self.new ≡ moved_to self.old stream file place) }
    {
        let slot = slot_among(&self.open_files, stream);
        if let Some(file) = &mut self.open_files[slot] {
            file.place = place;
        }
    }
}

// A count, as the code of an answer.
fn counts(count: u32) -> Ack
    requires { count ≤ 2147483647 }
    ensures { result ≡ record { answer = answer.Code (pos count); number = 0 } }
{
    Ack {
        answer: Answer::Code(count as i32),
        number: 0,
    }
}
