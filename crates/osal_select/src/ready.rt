//! What is ready of a stream.
ghost use Rattle.std.specs.Prelude.{◌≡◌};
ghost use Rattle.osal_select.specs.Selects as of_selects;

use osal_base::Mode;

/// What can be done on a stream without a wait (`OS_STREAM_STATE_READABLE`, `OS_STREAM_STATE_WRITABLE`).
#[derive(Clone, Copy, Debug, PartialEq, Eq)]
pub struct Ready {
    /// It can be read.
    pub readable: bool,
    /// It can be written.
    pub writable: bool,
}

impl Ready {
    /// Neither.
    pub const NEITHER: Ready = Ready {
        readable: false,
        writable: false,
    };

    /// 1 where it can be read and 2 where it can be written, or their sum, of what is asked; 0 where nothing asked is
    /// ready.
    pub fn number(self, asked: Mode) -> u32
        ensures { result ≡ of_selects.ready_number asked self }
    {
        let read = asked != Mode::W && self.readable;
        let write = asked != Mode::R && self.writable;
        u32::from(read) + 2 * u32::from(write)
    }
}
