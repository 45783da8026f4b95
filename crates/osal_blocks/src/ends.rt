//! The ends of lists of blocks, and a block that goes from one list to another.
ghost use Rattle.std.specs.Prelude.{◌≡◌, ◌≢◌, ◌<◌, ◌≤◌, ◌+◌, length};
ghost use Rattle.osal_blocks.specs.Chains.{IsThreaded, Moved, blocks_at, chains_in};
ghost use Rattle.osal_blocks.specs.Chains.{ends_at, linked, no_ends, with_last};

/// The first and the last block of a list, and how many blocks it has.
#[derive(Clone, Copy)]
pub(crate) struct Ends {
    pub(crate) first: u16,
    pub(crate) last: u16,
    pub(crate) count: u16,
}

impl Ends {
    /// The ends of a list without blocks.
    pub(crate) fn none() -> Ends
        ensures { result ≡ no_ends }
    {
        Ends {
            first: 0,
            last: 0,
            count: 0,
        }
    }

    // The ends with one more block behind the others.
    fn with_last(self, block: u16) -> Ends
        requires { self.count < 4096 }
        ensures { result ≡ with_last self block }
    {
        Ends {
            first: if self.count == 0 { block } else { self.first },
            last: block,
            count: self.count + 1,
        }
    }
}

/// The ends of a list.
pub(crate) fn ends_at(ends: &[Ends], list: usize) -> Ends
    requires { list < length ends.now }
    ensures { result ≡ ends_at ends.now list }
{
    ends[list]
}

// Puts a block behind the last of a list.
fn link(next: &mut [u16], ends: Ends, block: u16)
    requires { 0 < ends.count → ends.last < length next.old }
    ensures { next.new ≡ linked next.old ends block }
{
    if ends.count > 0 {
        next[usize::from(ends.last)] = block;
    }
}

/// Puts the first block of a list behind the last of another.
pub(crate) fn shift(next: &mut [u16], ends: &mut [Ends], from: usize, to: usize)
    requires from { from < 257 }
    requires to { to < 257 }
    requires two { from ≢ to }
    requires some { 0 < length (blocks_at (chains_in next.old ends.old) from) }
    requires room { length (blocks_at (chains_in next.old ends.old) to) < 4096 }
    requires threaded { IsThreaded next.old ends.old }
    ensures moved { Moved (chains_in next.old ends.old) (chains_in next.new ends.new) from to 1 }
    ensures threaded { IsThreaded next.new ends.new }
{
    let source = ends_at(ends, from);
    let target = ends_at(ends, to);
    ends[from] = Ends {
        first: next[usize::from(source.first)],
        last: source.last,
        count: source.count - 1,
    };
    ends[to] = target.with_last(source.first);
    link(next, target, source.first);
}
