//! How the waits of the io part end: a wait makes its call again.
ghost use Rattle.std.specs.Prelude.{◌≡◌, []};
ghost use Rattle.osal_base.specs.Reply.{replied, is_waits};
ghost use Rattle.osal_object.specs.Deadlines.{deadlines_in, least};
ghost use Rattle.osal_base.specs.declared.time.Timeout.TheVariants.{Pend};
ghost use Rattle.osal_io.specs.Io.{read_now};
ghost use Rattle.osal_io.specs.Sockets.{accept_now, receive_now};
ghost use Rattle.osal_io.specs.Ends as of_ends;

use crate::{Awaited, IoPart, Stream};
use osal_base::{Ack, Answer, Moment, OsalId, Room, Status, Timeout};

impl IoPart {
    /// Ends the wait of the calling task, where its call would no longer have to wait, or it is due.
    ///
    /// Else it answers `Waits` and changes nothing. It takes no memory.
    pub(crate) fn wait_end(&mut self, task: OsalId, now: Moment, room: &mut Room) -> Ack
        ensures { (replied result room.new, self.new) ≡ of_ends.wait_end self.old task now }
    {
        room.clear();
        let (what, due) = match self.streams.wait_of(task) {
            Some(wait) => (wait.what.copied(), wait.is_due(now)),
            None => return Ack::refused(Status::ErrIncorrectObjState),
        };
        let ack = self.again(&what, room);
        match ack.answer {
            Answer::Waits => {
                room.clear();
                self.end_late(task, due)
            }
            _ => {
                self.streams.end(task);
                ack
            }
        }
    }

    // Ends the wait of a task whose call would have to wait again, where it is due.
    fn end_late(&mut self, task: OsalId, due: bool) -> Ack
        ensures { (replied result [], self.new) ≡ of_ends.ended_late self.old task due }
    {
        if !due {
            return Ack::waits();
        }
        self.streams.end(task);
        Ack::refused(Status::ErrorTimeout)
    }

    // Makes the call of a wait again, and answers `Waits` where it still has to wait.
    fn again(&mut self, what: &Awaited, room: &mut Room) -> Ack
        requires { room.old ≡ [] }
        ensures { (replied result room.new, self.new) ≡ of_ends.again self.old what.now }
    {
        match what {
            Awaited::Read { id, n } => self.read_now(*id, *n, Timeout::Pend, room),
            Awaited::Accept { id } => self.accept_now(*id, Timeout::Pend),
            Awaited::Receive { id, n } => self.receive_now(*id, *n, Timeout::Pend, room),
            Awaited::One { id, mode } => self.one_now(*id, *mode, Timeout::Pend),
            Awaited::Multi { reads, writes } => self.multi_now(reads, writes, Timeout::Pend, room),
        }
    }

    /// Whether the end of a task's wait would not answer `Waits`.
    pub fn ready(&self, task: OsalId, now: Moment, part: u32) -> bool
        requires { part ≡ 7 }
        ensures { result ≡ of_ends.ready self.now task now }
    {
        match self.streams.wait_of(task) {
            Some(wait) => wait.is_due(now) || !self.still_waits(&wait.what),
            None => true,
        }
    }

    // Whether the call of a wait would have to wait again.
    fn still_waits(&self, what: &Awaited) -> bool
        ensures { result ≡ is_waits (of_ends.again self.now what.now).0.answer }
    {
        match what {
            Awaited::Read { id, n } => self.read_waits(*id, *n),
            Awaited::Accept { id } => self.accept_waits(*id),
            Awaited::Receive { id, n } => self.receive_waits(*id, *n),
            Awaited::One { id, mode } => self.one_now(*id, *mode, Timeout::Pend).answer
                == Answer::Waits,
            Awaited::Multi { reads, writes } => {
                let mut room = Room::new();
                self.multi_now(reads, writes, Timeout::Pend, &mut room)
                    .answer
                    == Answer::Waits
            }
        }
    }

    // Whether a read would have to wait.
    fn read_waits(&self, id: OsalId, n: u32) -> bool
        ensures { result ≡ is_waits (read_now self.now id n Pend).0.answer }
    {
        0 < n && n <= 1024 && self.stream(id) == Some(Stream::Socket) && self.net.reads_late(id)
    }

    // Whether an accept would have to wait.
    fn accept_waits(&self, id: OsalId) -> bool
        ensures { result ≡ is_waits (accept_now self.now id Pend).0.answer }
    {
        self.streams.is_active(id) && self.net.accepts_late(id)
    }

    // Whether a receive would have to wait.
    fn receive_waits(&self, id: OsalId, n: u32) -> bool
        ensures { result ≡ is_waits (receive_now self.now id n Pend).0.answer }
    {
        0 < n && n <= 1024 && self.streams.is_active(id) && self.net.receives_late(id)
    }

    /// The least deadline of an open wait behind a moment, in milliseconds, if there is one. It looks at each wait.
    pub fn next_deadline(&self, now: Moment) -> Option<u64>
        ensures { result ≡ least (deadlines_in now self.now.streams.waits.records) }
    {
        self.streams.next_deadline(now)
    }
}
