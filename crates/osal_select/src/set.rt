//! Sets of streams.
ghost use Rattle.std.specs.Prelude.{◌≡◌, ◌≤◌, ◌<◌, ◌==◌, ◌||◌, ◌+◌, [], IsTrue, length, nat_lt};
ghost use Rattle.osal_select.specs.Sets as of_sets;

use arrayvec::ArrayVec;
use osal_base::OsalId;
use std::marker::Model;

/// The most streams of a set (`OS_MAX_NUM_OPEN_FILES` of a set's bits).
const SET_LIMIT: usize = 64;

/// At most 64 streams, in the order of their identifiers (`OS_FdSet`). It takes no memory of its own.
#[derive(Debug, Drop)]
pub struct FdSet {
    // Raw, since an ArrayVec fills its free places with a default, which an identifier has not.
    ids: ArrayVec<u32, SET_LIMIT>,
}

impl Model for FdSet {
    ghost use Rattle.std.specs.Prelude.{◌≤◌, List, ℕ, length};
    ghost use Rattle.osal_select.specs.Sets.{set_limit, Ascend};

    ghost Value = { List ℕ };

    ghost view = { λ a. a.ids.items };

    ghost invariant = { λ a. (length a.ids.items ≤ set_limit) × Ascend a.ids.items };
}

impl FdSet {
    /// `OS_SelectFdZero`: no streams.
    pub fn zero() -> FdSet
        ensures { result ≡ [] }
    {
        FdSet {
            ids: ArrayVec::new(),
        }
    }

    /// `OS_SelectFdAdd`: one stream more. It answers false, and changes nothing, exactly where there are 64 others.
    ///
    /// It looks at each stream twice at most.
    pub fn add(&mut self, id: OsalId) -> bool
        ensures takes { result ≡ of_sets.takes id self.old }
        ensures set { self.new ≡ of_sets.added id self.old }
    {
        if self.is_set(id) {
            return true;
        }
        if self.ids.is_full() {
            return false;
        }
        put(&mut self.ids, id.raw());
        true
    }

    /// `OS_SelectFdClear`: without a stream, whether it is there or not. It looks at each stream.
    pub fn clear(&mut self, id: OsalId)
        ensures { self.new ≡ of_sets.without_stream id self.old }
    {
        self.ids.retain(|other| *other != id.raw());
    }

    /// `OS_SelectFdIsSet`: whether a stream is there. It looks at each stream at most.
    pub fn is_set(&self, id: OsalId) -> bool
        ensures { result ≡ of_sets.is_in id self.now }
    {
        has(self.ids.as_slice(), id.raw())
    }

    /// Whether no stream is there.
    pub fn is_empty(&self) -> bool
        ensures { result ≡ (length self.now == 0) }
    {
        self.ids.is_empty()
    }

    /// The streams in ascending order, each as the number that its identifier is: at most 64.
    pub fn as_slice(&self) -> &[u32]
        ensures value { result.now ≡ self.now }
        ensures bound { length self.now ≤ of_sets.set_limit }
        ensures order { of_sets.Ascend self.now }
    {
        self.ids.as_slice()
    }

    /// The same set again. It takes no memory.
    pub fn copied(&self) -> FdSet
        ensures { result ≡ self.now }
    {
        let mut ids = ArrayVec::new();
        let copied = ids.try_extend_from_slice(self.ids.as_slice());
        copied.unwrap();
        FdSet { ids }
    }

    /// The streams of two sets in ascending order, each once: at most 128. It costs the product of their sizes.
    pub fn each_once(&self, writes: &FdSet) -> ArrayVec<u32, 128>
        ensures value { result.items ≡ of_sets.streams_of self.now writes.now }
        ensures bound { length result.items ≤ 128 }
    {
        let mut all = ArrayVec::new();
        put_each(&mut all, self.as_slice());
        put_each(&mut all, writes.as_slice());
        all
    }
}

// Puts each of some streams in its place, where it is not there yet.
fn put_each(all: &mut ArrayVec<u32, 128>, ids: &[u32])
    requires room { length all.old.items + length ids.now ≤ 128 }
    requires order { of_sets.Ascend all.old.items }
    ensures value { all.new.items ≡ of_sets.joined all.old.items ids.now }
    ensures ascending { of_sets.Ascend all.new.items }
    ensures few { length all.new.items ≤ length all.old.items + length ids.now }
{
    for id in ids {
        put(all, *id);
    }
}

// Puts a stream in its place, where it is not there yet.
fn put<const CAP: usize>(ids: &mut ArrayVec<u32, CAP>, id: u32)
    requires room { IsTrue (of_sets.is_in id ids.old.items || nat_lt (length ids.old.items) CAP) }
    requires order { of_sets.Ascend ids.old.items }
    ensures { ids.new.items ≡ of_sets.with_stream id ids.old.items }
{
    if has(ids.as_slice(), id) {
        return;
    }
    let place = place_of(ids.as_slice(), id);
    ids.insert(place, id);
}

fn has(ids: &[u32], id: u32) -> bool
    ensures { result ≡ of_sets.is_in id ids.now }
{
    ids.iter().any(|other| *other == id)
}

// The first place whose stream is not below this one.
fn place_of(ids: &[u32], id: u32) -> usize
    ensures value { result ≡ of_sets.below id ids.now }
    ensures within { result ≤ length ids.now }
{
    let mut place = 0;
    while place < ids.len() && ids[place] < id {
        place += 1;
    }
    place
}
