//! The course of serials.
ghost use Rattle.std.specs.Prelude.{◌≡◌, ◌<◌, ◌≤◌};
ghost use Rattle.osal_idtable.specs.Next.{after};

/// A place in the course of serials: the serial, and how often the course began again.
#[derive(Clone, Copy, Debug, PartialEq, Eq)]
pub(crate) struct Place {
    pub(crate) serial: u16,
    pub(crate) wraps: u64,
}

impl Place {
    /// The place after this one.
    pub(crate) fn after(self, capacity: u32) -> Place
        requires some { 0 < capacity }
        requires few { capacity ≤ 1024 }
        ensures { result ≡ after capacity self }
    {
        let next = u32::from(self.serial) + 1;
        if next < 65535 {
            return Place {
                serial: next as u16,
                wraps: self.wraps,
            };
        }
        Place {
            serial: (next % capacity) as u16,
            wraps: self.wraps.saturating_add(1),
        }
    }
}
