//! The owner of an open file, changed.

use std::fs::File;
use std::os::unix::fs::fchown;

/// An open file that can be given to another owner.
pub trait Owned {
    /// Gives the file to this group and to this owner, each where the system allows it.
    fn set_owner(&self, owner: u32, group: u32);
}

impl Owned for File {
    fn set_owner(&self, owner: u32, group: u32) {
        // A member of the group may set that alone.
        let _ = fchown(self, None, Some(group));
        let _ = fchown(self, Some(owner), None);
    }
}
