//! The calls on streams, whatever they are.
ghost use Rattle.std.specs.Prelude.{◌≡◌, [], List, ℕ};
ghost use Rattle.osal_base.specs.Reply.{replied};
ghost use Rattle.osal_object.specs.Standing.{standing_on};
ghost use Rattle.osal_io.specs.Io as of_io;

use crate::{Awaited, IoPart, Stream};
use osal_base::{
    Access, Ack, Answer, Bytes, Moment, OpenFlags, OsalId, Room, Status, Timeout, Whence,
};
use osal_object::{Standing, WaitRecord};

impl IoPart {
    /// `OS_OpenCreate`: the stream of a file, which is made or emptied as the flags ask.
    pub(crate) fn open_file(&mut self, path: &Bytes, flags: OpenFlags, access: Access) -> Ack
        ensures { (replied result [], self.new) ≡ of_io.open_file self.old path.now.bytes flags access }
    {
        let id = self.next_stream();
        let ack = self.files.open_file(path, flags, access, id);
        self.add_stream(Stream::File, ack.answer);
        ack
    }

    // The identifier that a new stream gets, if one is free.
    pub(crate) fn next_stream(&self) -> Option<OsalId>
        ensures { result ≡ of_io.next_stream self.now }
    {
        match self.streams.peek_unnamed() {
            Ok(id) => Some(id),
            Err(_) => None,
        }
    }

    // A new stream, where the call that gives it succeeded.
    pub(crate) fn add_stream(&mut self, stream: Stream, answer: Answer)
        ensures streams { (number : ℕ) (bytes : List ℕ) → self.new.streams
            ≡ of_io.streams_after self.old stream (record { answer = answer; number = number; bytes = bytes }) }
        ensures files { self.new.files ≡ self.old.files }
        ensures net { self.new.net ≡ self.old.net }
    {
        if answer == Answer::Code(0) {
            self.streams.create_unnamed(stream);
        }
    }

    // What a stream is, if it is active.
    pub(crate) fn stream(&self, id: OsalId) -> Option<Stream>
        ensures { result ≡ of_io.stream_under (of_io.stream_at self.now id) }
    {
        match self.streams.lookup(id) {
            Ok(stream) => Some(*stream),
            Err(_) => None,
        }
    }

    // Begins the wait of a call on one stream.
    pub(crate) fn begin_on(
        &mut self,
        task: OsalId,
        now: Moment,
        what: Awaited,
        id: OsalId,
        wait: Timeout,
    ) -> Ack
        ensures { (replied result [], self.new) ≡ of_io.begun self.old task now what (standing_on (Some id)) wait }
    {
        self.streams.begin(WaitRecord::new(task, what, Standing::new(Some(id)), wait, now))
    }

    /// `OS_read` and `OS_TimedRead`: the next bytes of a file, or those that came to a socket.
    pub(crate) fn read(
        &mut self,
        task: OsalId,
        now: Moment,
        id: OsalId,
        n: u32,
        wait: Timeout,
        room: &mut Room,
    ) -> Ack
        ensures { (replied result room.new, self.new) ≡ of_io.read self.old task now id n wait }
    {
        let ack = self.read_now(id, n, wait, room);
        match ack.answer {
            Answer::Waits => {
                room.clear();
                self.begin_on(task, now, Awaited::Read { id, n }, id, wait)
            }
            _ => ack,
        }
    }

    /// Reads, and answers `Waits` where it has to wait.
    pub(crate) fn read_now(&mut self, id: OsalId, n: u32, wait: Timeout, room: &mut Room) -> Ack
        ensures { (replied result room.new, self.new) ≡ of_io.read_now self.old id n wait }
    {
        room.clear();
        if n == 0 || 1024 < n {
            return Ack::refused(Status::ErrInvalidSize);
        }
        match self.stream(id) {
            None => Ack::refused(Status::ErrInvalidId),
            Some(Stream::File) => self.files.read(id, n, room),
            Some(Stream::Socket) => self.net.read(id, n, wait, room),
        }
    }

    /// `OS_write` and `OS_TimedWrite`: bytes at the place of a file, or to the peer of a socket.
    pub(crate) fn write(&mut self, id: OsalId, payload: &Bytes) -> Ack
        ensures { (replied result [], self.new) ≡ of_io.write self.old id payload.now.bytes }
    {
        if payload.as_slice().is_empty() || 4096 < payload.as_slice().len() {
            return Ack::refused(Status::ErrInvalidSize);
        }
        match self.stream(id) {
            None => Ack::refused(Status::ErrInvalidId),
            Some(Stream::File) => self.files.write(id, payload),
            Some(Stream::Socket) => self.net.write(id, payload),
        }
    }

    /// `OS_lseek`: another place of a file.
    pub(crate) fn lseek(&mut self, id: OsalId, offset: i64, whence: Whence) -> Ack
        ensures { (replied result [], self.new) ≡ of_io.lseek self.old id offset whence }
    {
        match self.stream(id) {
            None => Ack::refused(Status::ErrInvalidId),
            Some(Stream::File) => self.files.lseek(id, offset, whence),
            Some(Stream::Socket) => Ack::refused(Status::ErrIncorrectObjType),
        }
    }

    /// `OS_close`: removes a stream that nobody holds.
    pub(crate) fn close(&mut self, id: OsalId) -> Ack
        ensures { (replied result [], self.new) ≡ of_io.close self.old id }
    {
        let Some(stream) = self.stream(id) else {
            return Ack::refused(Status::ErrInvalidId);
        };
        if self.streams.is_held(id) {
            return Ack::refused(Status::ErrObjectInUse);
        }
        self.streams.delete(id);
        match stream {
            Stream::File => self.files.close(id),
            Stream::Socket => self.net.close(id),
        }
    }
}
