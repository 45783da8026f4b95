//! The calls on the console.
ghost use Rattle.std.specs.Prelude.{◌≡◌, []};
ghost use Rattle.osal_base.specs.Reply.{replied};
ghost use Rattle.osal_console.specs.Console as of_console;

use crate::ConsolePart;
use osal_base::{Ack, Answer, Bytes, Room, Status};

/// The most bytes that one drain takes.
const DRAIN_LIMIT: u32 = 1024;

impl ConsolePart {
    /// `OS_ConsoleWrite`: puts all of the bytes behind those that are pending. While the console is disabled nothing
    /// happens.
    ///
    /// Refused are bytes for which there is no room (`OS_QUEUE_FULL`): none of them is taken then. The cost is their
    /// number.
    pub fn console_write(&mut self, payload: &Bytes) -> Ack
        ensures { (replied result [], self.new) ≡ of_console.console_write self.old payload.now.bytes }
    {
        if !self.enabled {
            return Ack::success();
        }
        let bytes = payload.as_slice();
        if self.ring.space() < bytes.len() {
            return Ack::refused(Status::QueueFull);
        }
        self.ring.put(bytes);
        Ack::success()
    }

    /// `OS_printf_enable`: from now on the console takes bytes, as it does at the start.
    pub fn console_enable(&mut self) -> Ack
        ensures { (replied result [], self.new) ≡ of_console.console_enable self.old }
    {
        self.enabled = true;
        Ack::success()
    }

    /// `OS_printf_disable`: from now on the console takes none; what is pending stays.
    pub fn console_disable(&mut self) -> Ack
        ensures { (replied result [], self.new) ≡ of_console.console_disable self.old }
    {
        self.enabled = false;
        Ack::success()
    }

    /// Takes the oldest pending bytes, at most `n`. The code is how many they are. In OSAL a task of the console does
    /// this by itself.
    ///
    /// Refused is a number that is 0 or above 1,024 (`OS_ERR_INVALID_SIZE`). The cost is the bytes that are taken.
    pub fn drain(&mut self, n: u32, room: &mut Room) -> Ack
        requires { room.old ≡ [] }
        ensures { (replied result room.new, self.new) ≡ of_console.drain self.old n }
    {
        if n == 0 || DRAIN_LIMIT < n {
            return Ack::refused(Status::ErrInvalidSize);
        }
        let count = self.ring.len().min(n as usize);
        self.ring.take(count, room);
        Ack {
            answer: Answer::Code(count as i32),
            number: 0,
        }
    }
}
