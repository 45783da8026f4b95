//! The names in a directory.
use super::Volume;
use crate::fault::{VolFault, vol_fault};
use osal_base::Name;
use std::alloc::Global;

impl Volume {
    ghost use Rattle.std.specs.Prelude.{◌≡◌, IfOk, IfErr};
    ghost use Rattle.osal_volume.specs.Volume.{content_at};
    ghost use Rattle.osal_volume.specs.Listing.{listing_fault, or_memory, IsListing};

    /// The names in a directory, in the order of their bytes. It takes memory for them.
    pub fn list(&self, alloc: Global, at: &[Name]) -> Result<Vec<Name>, VolFault>
        ensures listed { IfOk result (λ names. IsListing self.now at.now names.items) }
        ensures refused { IfErr result (λ why. why ≡ or_memory (listing_fault (content_at self.now at.now))) }
    {
        match self.tree.list(alloc, at) {
            Ok(names) => Ok(names),
            Err(fault) => Err(vol_fault(fault)),
        }
    }
}
