//! How bytes come to lie on the blocks of a list, and how they are read.
ghost use Rattle.std.specs.Prelude.{◌≡◌, ◌≢◌, ◌<◌, ◌≤◌, ◌+◌, ◌-◌, ◌*◌, ◌%◌, [], length, min, replicate};
ghost use Rattle.osal_blocks.specs.Bytes.{Laid, Reads, bytes_in};
ghost use Rattle.osal_blocks.specs.Chains.{IsApart, blocks_at};

use crate::chains::Chains;
use osal_base::Room;

/// How many bytes a block holds.
pub(crate) const BLOCK: usize = 512;

// How many of so many bytes from a place on lie on one block.
fn on_one_block(place: usize, count: usize) -> usize
    ensures { result ≡ min (512 - place % 512) count }
{
    (BLOCK - place % BLOCK).min(count)
}

/// Lays a piece on a list from a place on, and copies each byte once.
pub(crate) fn lay(store: &mut [u8], chains: &Chains, list: usize, place: usize, piece: &[u8])
    requires list { list < 257 }
    requires store { length store.old ≡ chains.now.total * 512 }
    requires room { place + length piece.now ≤ length (blocks_at chains.now list) * 512 }
    ensures laid { Laid store.old store.new (blocks_at chains.now list) place piece.now (length piece.now) }
    ensures apart { IsApart chains.now }
{
    let mut block = chains.at(list, place / BLOCK);
    let mut done = 0;
    while done < piece.len() {
        let start = block * BLOCK + (place + done) % BLOCK;
        let count = on_one_block(place + done, piece.len() - done);
        store[start..start + count].copy_from_slice(&piece[done..done + count]);
        done += count;
        block = chains.after(block);
    }
}

/// Lays zero bytes on a list from a place on, as many as `count` is.
pub(crate) fn wipe(store: &mut [u8], chains: &Chains, list: usize, place: usize, count: usize)
    requires list { list < 257 }
    requires store { length store.old ≡ chains.now.total * 512 }
    requires room { place + count ≤ length (blocks_at chains.now list) * 512 }
    ensures laid { Laid store.old store.new (blocks_at chains.now list) place (replicate count 0) count }
    ensures apart { IsApart chains.now }
{
    let mut block = chains.at(list, place / BLOCK);
    let mut done = 0;
    while done < count {
        let start = block * BLOCK + (place + done) % BLOCK;
        let part = on_one_block(place + done, count - done);
        store[start..start + part].fill(0);
        done += part;
        block = chains.after(block);
    }
}

/// Reads as many bytes as `count` is from a place of a list on into a clear room.
pub(crate) fn read(
    store: &[u8],
    chains: &Chains,
    list: usize,
    place: usize,
    count: usize,
    room: &mut Room,
)
    requires list { list < 257 }
    requires store { length store.now ≡ chains.now.total * 512 }
    requires there { place + count ≤ length (blocks_at chains.now list) * 512 }
    requires few { count ≤ 1024 }
    requires clear { room.old ≡ [] }
    ensures { Reads store.now (blocks_at chains.now list) place room.new count }
{
    let mut block = chains.at(list, place / BLOCK);
    let mut done = 0;
    while done < count {
        let start = block * BLOCK + (place + done) % BLOCK;
        let part = on_one_block(place + done, count - done);
        room.append(&store[start..start + part]);
        done += part;
        block = chains.after(block);
    }
}

/// Copies the first bytes of a list, so many as `count` is, onto another.
pub(crate) fn copy(store: &mut [u8], chains: &Chains, from: usize, to: usize, count: usize)
    requires from { from < 257 }
    requires to { to < 257 }
    requires two { from ≢ to }
    requires store { length store.old ≡ chains.now.total * 512 }
    requires there { count ≤ length (blocks_at chains.now from) * 512 }
    requires room { count ≤ length (blocks_at chains.now to) * 512 }
    ensures laid { Laid store.old store.new (blocks_at chains.now to) 0
        (bytes_in store.old (blocks_at chains.now from) count) count }
    ensures apart { IsApart chains.now }
{
    let mut source = chains.at(from, 0);
    let mut target = chains.at(to, 0);
    let mut done = 0;
    while done < count {
        let part = on_one_block(done, count - done);
        let start = source * BLOCK + done % BLOCK;
        store.copy_within(start..start + part, target * BLOCK + done % BLOCK);
        done += part;
        source = chains.after(source);
        target = chains.after(target);
    }
}

/// Copies the first bytes of a list of other store, so many as `count` is, onto a list.
pub(crate) fn copy_from(
    store: &mut [u8],
    chains: &Chains,
    to: usize,
    others: &[u8],
    other_chains: &Chains,
    from: usize,
    count: usize,
)
    requires from { from < 257 }
    requires to { to < 257 }
    requires store { length store.old ≡ chains.now.total * 512 }
    requires others { length others.now ≡ other_chains.now.total * 512 }
    requires there { count ≤ length (blocks_at other_chains.now from) * 512 }
    requires room { count ≤ length (blocks_at chains.now to) * 512 }
    ensures laid { Laid store.old store.new (blocks_at chains.now to) 0
        (bytes_in others.now (blocks_at other_chains.now from) count) count }
    ensures apart { IsApart chains.now }
{
    let mut source = other_chains.at(from, 0);
    let mut target = chains.at(to, 0);
    let mut done = 0;
    while done < count {
        let part = on_one_block(done, count - done);
        let start = target * BLOCK + done % BLOCK;
        let there = source * BLOCK + done % BLOCK;
        store[start..start + part].copy_from_slice(&others[there..there + part]);
        done += part;
        source = other_chains.after(source);
        target = chains.after(target);
    }
}
