//! How many objects of each kind there may be.
ghost use Rattle.std.specs.Prelude.{◌≡◌, IsTrue, ◌↔◌};
ghost use Rattle.osal_base.specs.Limits.{version1, Fits, IsCapacity};

/// The capacity of each table (`osconfig.h`'s `OS_MAX_TASKS` and its kin).
#[derive(Clone, Copy, Debug, PartialEq, Eq)]
pub struct Limits {
    pub tasks: u32,
    pub queues: u32,
    pub count_sems: u32,
    pub bin_sems: u32,
    pub mutexes: u32,
    pub condvars: u32,
    pub timebases: u32,
    pub timers: u32,
    pub streams: u32,
    pub dirs: u32,
    pub file_systems: u32,
}

impl Limits {
    /// The capacities of an application of version 1.
    pub fn version1() -> Limits
        ensures value { result ≡ version1 }
        ensures fits { Fits result }
    {
        Limits {
            tasks: 64,
            queues: 64,
            count_sems: 20,
            bin_sems: 20,
            mutexes: 20,
            condvars: 20,
            timebases: 5,
            timers: 10,
            streams: 50,
            dirs: 4,
            file_systems: 14,
        }
    }

    /// Whether each capacity is 1 to 1,024.
    pub fn fits(&self) -> bool
        ensures { IsTrue result ↔ Fits self.now }
    {
        is_capacity(self.tasks)
            && is_capacity(self.queues)
            && is_capacity(self.count_sems)
            && is_capacity(self.bin_sems)
            && is_capacity(self.mutexes)
            && is_capacity(self.condvars)
            && is_capacity(self.timebases)
            && is_capacity(self.timers)
            && is_capacity(self.streams)
            && is_capacity(self.dirs)
            && is_capacity(self.file_systems)
    }
}

fn is_capacity(n: u32) -> bool
    ensures { IsTrue result ↔ IsCapacity n }
{
    1 <= n && n <= 1024
}
