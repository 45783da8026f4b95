//! The call that moves what stands at a path.
use super::Volume;
use crate::fault::{VolFault, vol_fault};
use osal_base::Name;

impl Volume {
    ghost use Rattle.std.specs.Prelude.{◌≡◌};
    ghost use Rattle.osal_volume.specs.Renames.{rename_step};

    /// Moves a file, or a directory with all that is below it. It takes no memory.
    pub fn rename(&mut self, from: &[Name], to: &[Name]) -> Result<(), VolFault>
        ensures { (result, self.new) ≡ rename_step self.old from.now to.now }
    {
        // This look also tells that nothing lies below a path at which nothing stands.
        if self.tree.kind(from).is_none() {
            return Err(VolFault::NotFound);
        }
        match self.tree.rename(from, to) {
            Ok(()) => Ok(()),
            Err(fault) => Err(vol_fault(fault)),
        }
    }
}
