//! What is asked by an identifier of a file system or of a directory.
ghost use Rattle.std.specs.Prelude.{◌≡◌, []};
ghost use Rattle.osal_base.specs.Reply.{replied};
ghost use Rattle.osal_file.specs.Held.{is_of_directory, is_active, hold, release};

use crate::Files;
use osal_base::{Ack, ObjType, OsalId};

impl Files {
    /// Holds an open directory or a file system, so that it is not removed.
    ///
    /// Refused are, in this order, an identifier that is not active (`OS_ERR_INVALID_ID`), and a hold past a million of
    /// them (`OS_ERROR`). The cost is constant.
    pub fn hold(&mut self, id: OsalId) -> Ack
        ensures { (replied result [], self.new) ≡ hold self.old id }
    {
        if is_of_directory(id) {
            self.directories.hold(id)
        } else {
            self.systems.hold(id)
        }
    }

    /// Gives a hold of an open directory or of a file system back.
    ///
    /// Refused are, in this order, an identifier that is not active (`OS_ERR_INVALID_ID`), and one that nobody holds
    /// (`OS_ERR_INCORRECT_OBJ_STATE`). The cost is constant.
    pub fn release(&mut self, id: OsalId) -> Ack
        ensures { (replied result [], self.new) ≡ release self.old id }
    {
        if is_of_directory(id) {
            self.directories.release(id)
        } else {
            self.systems.release(id)
        }
    }

    /// Whether an identifier is active, as one of an open directory or else of a file system. The cost is constant.
    pub fn active(&self, id: OsalId) -> bool
        ensures { result ≡ is_active self.now id }
    {
        if is_of_directory(id) {
            self.directories.is_active(id)
        } else {
            self.systems.is_active(id)
        }
    }
}

// Whether an identifier is one of a directory.
fn is_of_directory(id: OsalId) -> bool
    ensures { result ≡ is_of_directory id }
{
    id.raw() / 65536 == ObjType::Directory.number()
}
