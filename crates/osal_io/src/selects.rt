//! Selects: which of some streams are ready.
ghost use Rattle.std.specs.Prelude.{◌≡◌, ◌+◌, ◌*◌, ◌≤◌, ◌++◌, [], length};
ghost use Rattle.osal_base.specs.Reply.{replied};
ghost use Rattle.osal_select.specs.Selects.{id_bytes, readable_of, writable_of};
ghost use Rattle.osal_select.specs.Sets.{streams_of};
ghost use Rattle.osal_io.specs.declared.awaited.Awaited.TheVariants.{Multi};
ghost use Rattle.osal_io.specs.Io.{begun};
ghost use Rattle.osal_io.specs.Select as of_select;

use crate::{Awaited, IoPart, Stream};
use osal_base::{Ack, Answer, Mode, Moment, OsalId, Room, Status, Timeout};
use osal_object::{Standing, WaitRecord};
use osal_select::{FdSet, Ready};

impl IoPart {
    /// What is ready of a stream: of a file both, whatever it was opened for.
    pub(crate) fn ready_of(&self, id: OsalId) -> Ready
        ensures { result ≡ of_select.ready_of self.now id }
    {
        match self.stream(id) {
            None => Ready::NEITHER,
            Some(Stream::File) => Ready {
                readable: true,
                writable: true,
            },
            Some(Stream::Socket) => self.net.ready(id),
        }
    }

    /// `OS_SelectSingle`: whether a stream is ready.
    pub(crate) fn select_one(
        &mut self,
        task: OsalId,
        now: Moment,
        id: OsalId,
        mode: Mode,
        wait: Timeout,
    ) -> Ack
        ensures { (replied result [], self.new) ≡ of_select.select_one self.old task now id mode wait }
    {
        let ack = self.one_now(id, mode, wait);
        match ack.answer {
            Answer::Waits => self.begin_on(task, now, Awaited::One { id, mode }, id, wait),
            _ => ack,
        }
    }

    /// Selects one stream, and answers `Waits` where it has to wait.
    pub(crate) fn one_now(&self, id: OsalId, mode: Mode, wait: Timeout) -> Ack
        ensures { (replied result [], self.now) ≡ of_select.one_now self.now id mode wait }
    {
        if !self.streams.is_active(id) {
            return Ack::refused(Status::ErrInvalidId);
        }
        let number = self.ready_of(id).number(mode);
        if number == 0 {
            return finds_none(wait);
        }
        Ack::gives(u64::from(number))
    }

    /// `OS_SelectMultiple`: which streams of two sets are ready. It costs the members.
    pub(crate) fn select_multi(
        &mut self,
        task: OsalId,
        now: Moment,
        reads: &FdSet,
        writes: &FdSet,
        wait: Timeout,
        room: &mut Room,
    ) -> Ack
        ensures { (replied result room.new, self.new) ≡ of_select.select_multi self.old task now reads.now writes.now wait }
    {
        let ack = self.multi_now(reads, writes, wait, room);
        match ack.answer {
            Answer::Waits => {
                room.clear();
                self.begin_multi(task, now, reads, writes, wait)
            }
            _ => ack,
        }
    }

    // Begins the wait of a select of some streams.
    fn begin_multi(
        &mut self,
        task: OsalId,
        now: Moment,
        reads: &FdSet,
        writes: &FdSet,
        wait: Timeout,
    ) -> Ack
        ensures { (replied result [], self.new) ≡ begun self.old task now (Multi reads.now writes.now) (streams_of reads.now writes.now) wait }
    {
        let what = Awaited::Multi {
            reads: reads.copied(),
            writes: writes.copied(),
        };
        let on = Standing::on_each(reads.each_once(writes).as_slice());
        self.streams
            .begin(WaitRecord::new(task, what, on, wait, now))
    }

    /// Selects some streams, and answers `Waits` where it has to wait.
    pub(crate) fn multi_now(
        &self,
        reads: &FdSet,
        writes: &FdSet,
        wait: Timeout,
        room: &mut Room,
    ) -> Ack
        ensures { (replied result room.new, self.now) ≡ of_select.multi_now self.now reads.now writes.now wait }
    {
        room.clear();
        if reads.is_empty() && writes.is_empty() {
            return Ack::refused(Status::ErrInvalidArgument);
        }
        if !self.are_active(reads.as_slice()) || !self.are_active(writes.as_slice()) {
            return Ack::refused(Status::ErrInvalidId);
        }
        let readable = self.append_readable(reads.as_slice(), room);
        let writable = self.append_writable(writes.as_slice(), room);
        if readable == 0 && writable == 0 {
            return finds_none(wait);
        }
        Ack::gives(readable)
    }

    // Whether each of some streams is active.
    fn are_active(&self, ids: &[u32]) -> bool
        ensures { result ≡ of_select.are_active self.now ids.now }
    {
        ids.iter()
            .all(|id| self.streams.is_active(OsalId::of_raw(*id)))
    }

    // Appends those of some streams that can be read, and tells how many they are.
    fn append_readable(&self, ids: &[u32], room: &mut Room) -> u64
        requires { length room.old + 4 * length ids.now ≤ 1024 }
        ensures count { result ≡ length (readable_of (of_select.ready_of self.now) ids.now) }
        ensures bytes { room.new ≡ room.old ++ id_bytes (readable_of (of_select.ready_of self.now) ids.now) }
        ensures room { length room.new ≤ length room.old + 4 * length ids.now }
    {
        let mut count = 0;
        for id in ids {
            if self.ready_of(OsalId::of_raw(*id)).readable {
                room.append(&id.to_be_bytes());
                count += 1;
            }
        }
        count
    }

    // Does the same with those that can be written.
    fn append_writable(&self, ids: &[u32], room: &mut Room) -> u64
        requires { length room.old + 4 * length ids.now ≤ 1024 }
        ensures count { result ≡ length (writable_of (of_select.ready_of self.now) ids.now) }
        ensures bytes { room.new ≡ room.old ++ id_bytes (writable_of (of_select.ready_of self.now) ids.now) }
    {
        let mut count = 0;
        for id in ids {
            if self.ready_of(OsalId::of_raw(*id)).writable {
                room.append(&id.to_be_bytes());
                count += 1;
            }
        }
        count
    }
}

// What a select answers where nothing asked is ready.
fn finds_none(wait: Timeout) -> Ack
    ensures { replied result [] ≡ of_select.none_ready wait }
{
    if wait.is_check() {
        Ack::refused(Status::ErrorTimeout)
    } else {
        Ack::waits()
    }
}
