//! Folders that get files.

ghost use Rattle.std.specs.Prelude.{List, Option, [], ◌∷◌, IfErr, OnErr, OnOk};
ghost use Rattle.cmd_status.specs.declared.status.Status.{Status as TheStatus};
ghost use Rattle.cmd_numbered.specs.{Folders.Gets, declared.folder.MessageFile.MessageFile as TheFile};

use cmd_status::Status;
use echo_addr::Items;

/// A file that is to be made: its name in the folder, the number of its message in the base, and its bytes.
#[derive(Debug, Drop)]
pub struct MessageFile {
    pub name: Items<u8>,
    pub message: usize,
    pub bytes: Items<u8>,
}

/// The stored message of the greatest number in a folder, and that number: 0 if there is none.
#[derive(Clone, Copy, Debug)]
pub struct LastFile<'a> {
    pub number: u32,
    pub bytes: Option<&'a [u8]>,
}

/// A folder that gets files, one by one.
pub trait MessageFolder {
    // The files that it got, in order, where they are known.
    ghost made: { Self → Option (List TheFile) };

    // The status of a file that was not made: the folder before, and now.
    ghost refuses: { Self → Self → TheStatus → Type 0 };

    /// Makes the file. If that fails, the folder reports why, and answers the status.
    fn make(&mut self, file: &MessageFile) -> Result<(), Status>
        ensures made { OnOk result (Gets (made self.old) (made self.new) (file.now ∷ [])) }
        ensures why { IfErr result (refuses self.old self.new) }
        ensures none { OnErr result (Gets (made self.old) (made self.new) []) };
}
