//! Where a program writes its output.
ghost use Rattle.std.specs.Prelude.{◌≡◌, ◌<◌, ◌≤◌, ℕ, List, Option, length, IfOk, OnOk, OnErr};
ghost use Rattle.osal_outside.specs.Causes.{HasCause, WhereTold};
ghost use Rattle.osal_outside.specs.Sink.{WriteLeaves, FlushLeaves, Appends, AppendsPrefix};

/// A write or a flush failed; nothing more was written.
#[derive(Clone, Copy, Debug, PartialEq, Eq)]
pub struct WriteFailed;

/// A place to write bytes to.
pub trait Sink {
    /// The bytes written, where the sink tells them.
    ghost written: { Self → Option (List ℕ) };

    /// The bytes handed on, where the sink tells them.
    ghost flushed: { Self → Option (List ℕ) };

    /// How often the outside has failed: a call that did not fail leaves it.
    ghost faults: { Self → ℕ };

    /// Writes at least one byte of the piece, from its front, and answers how many.
    fn write(&mut self, piece: &[u8]) -> Result<usize, WriteFailed>
        requires { 0 < length piece.now }
        ensures count { IfOk result (λ n. (1 ≤ n) × (n ≤ length piece.now)) }
        ensures told { WhereTold (written self.old) (written self.new) (WriteLeaves result piece.now) }
        ensures cause { HasCause (faults self.old) (faults self.new) result };

    /// Hands on what was written.
    fn flush(&mut self) -> Result<(), WriteFailed>
        ensures told { written self.new ≡ written self.old }
        ensures handed { FlushLeaves result (written self.new) (flushed self.old) (flushed self.new) }
        ensures cause { HasCause (faults self.old) (faults self.new) result };
}

/// Writes all the bytes, or a prefix of them where the sink fails.
pub fn send_all<K: Sink>(sink: &mut K, bytes: &[u8]) -> Result<(), WriteFailed>
    ensures all { OnOk result (WhereTold (K.written sink.old) (K.written sink.new) (Appends bytes.now)) }
    ensures prefix { WhereTold (K.written sink.old) (K.written sink.new) (AppendsPrefix bytes.now) }
    ensures cause { HasCause (K.faults sink.old) (K.faults sink.new) result }
{
    let mut sent = 0;
    while sent < bytes.len() {
        sent += sink.write(&bytes[sent..])?;
    }
    Ok(())
}
