//! Why a call would be refused, for a caller that has to know before it makes the call.

use super::Volume;
use super::find::is_one_file;
use crate::fault::{VolFault, vol_fault};
use osal_base::Name;

impl Volume {
    ghost use Rattle.std.specs.Prelude.{◌≡◌, false};
    ghost use Rattle.std.specs.Ordering.{eq_by_cmp};
    ghost use Rattle.osal_tree.specs.Paths.{path_cmp};
    ghost use Rattle.osal_volume.specs.Volume.{content_at};
    ghost use Rattle.osal_volume.specs.Steps.{making_fault};
    ghost use Rattle.osal_volume.specs.Renames.{rename_fault};
    ghost use Rattle.osal_volume.specs.Copies.{placing_fault};

    /// Why `create` would be refused, if it would be.
    pub fn making_fault(&self, at: &[Name]) -> Option<VolFault>
        ensures { result ≡ making_fault self.now at.now }
    {
        match self.tree.making_fault(at) {
            None => None,
            Some(fault) => Some(vol_fault(fault)),
        }
    }

    /// Why `rename` would be refused, if it would be.
    pub fn rename_fault(&self, from: &[Name], to: &[Name]) -> Option<VolFault>
        ensures { result ≡ rename_fault self.now from.now to.now }
    {
        match self.tree.rename_fault(from, to) {
            None => None,
            Some(fault) => Some(vol_fault(fault)),
        }
    }

    /// Why `copy` would be refused, if it would be.
    pub fn copy_fault(&self, from: &[Name], to: &[Name]) -> Option<VolFault>
        ensures { result
            ≡ placing_fault self.now to.now (eq_by_cmp path_cmp from.now to.now) (content_at self.now from.now) }
    {
        let same = is_one_file(&self.tree, from, to);
        self.placing_fault(self.kind(from), same, to)
    }

    /// Why `copy_from` would be refused, if it would be.
    pub fn copy_from_fault(&self, other: &Volume, from: &[Name], to: &[Name]) -> Option<VolFault>
        ensures { result ≡ placing_fault self.now to.now false (content_at other.now from.now) }
    {
        self.placing_fault(other.kind(from), false, to)
    }
}
