//! The bytes in which a tick tells of the timers that fire in it.
ghost use Rattle.std.specs.Prelude.{◌≡◌, ◌+◌, ◌≤◌, ◌++◌, length, drop};
ghost use Rattle.osal_call.specs.Firing.{firing_bytes, group_number};

use osal_base::{OsalId, Room};

/// The most timers that may be attached to a timebase, and so fire in one of its ticks.
pub const TIMER_LIMIT: usize = 64;

/// The bytes of one firing: the timer, its backlog and the number of its handler, in four bytes each.
pub const FIRING_LENGTH: usize = 12;

/// Puts a firing behind the bytes that are there.
pub fn append_firing(room: &mut Room, timer: OsalId, backlog: u32, handler: u32)
    requires { length room.old + 12 ≤ 1024 }
    ensures { room.new ≡ room.old ++ firing_bytes (record { timer = timer; backlog = backlog; handler = handler }) }
{
    room.append(&timer.raw().to_be_bytes());
    room.append(&backlog.to_be_bytes());
    room.append(&handler.to_be_bytes());
}

/// The number of the handler in the firing whose bytes start there.
pub fn handler_at(bytes: &[u8], start: usize) -> u32
    requires { start + 12 ≤ length bytes.now }
    ensures { result ≡ group_number (drop start bytes.now) }
{
    u32::from_be_bytes([
        bytes[start + 8],
        bytes[start + 9],
        bytes[start + 10],
        bytes[start + 11],
    ])
}
