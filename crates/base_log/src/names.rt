//! The paths of the files of a base folder.
ghost use Rattle.std.specs.Prelude.{◌<◌, ◌≡◌, IfOk};
ghost use Rattle.base_log.specs.Names.{AreNames, folder_of, log_of};

use std::alloc::{AllocError, Global};

/// The log of commits.
pub const LOG: &[u8] = b"log";

/// The messages, before the digit of their number.
pub const MESSAGES: &[u8] = b"messages.";

/// The keys of the messages, before the digit of their number.
pub const KEYS: &[u8] = b"keys.";

/// The paths of a folder and of its files of one number.
#[derive(Drop)]
pub struct Names {
    pub folder: Vec<u8>,
    pub log: Vec<u8>,
    pub messages: Vec<u8>,
    pub keys: Vec<u8>,
}

impl Names {
    /// The paths of the files of that number in a folder: a path that ends in a slash or is empty.
    pub fn new(alloc: Global, folder: &[u8], number: u8) -> Result<Names, AllocError>
        requires { number < 10 }
        ensures folder { IfOk result (λ names. folder_of names ≡ folder.now) }
        ensures names { IfOk result (λ names. AreNames names number) }
    {
        let mut messages = folder.to_vec(alloc)?;
        messages.extend_from_slice(MESSAGES)?;
        messages.push(b'0' + number)?;
        let mut keys = folder.to_vec(alloc)?;
        keys.extend_from_slice(KEYS)?;
        keys.push(b'0' + number)?;
        Ok(Names {
            folder: folder.to_vec(alloc)?,
            log: log_path(alloc, folder)?,
            messages,
            keys,
        })
    }
}

/// The path of the log in a folder.
pub fn log_path(alloc: Global, folder: &[u8]) -> Result<Vec<u8>, AllocError>
    ensures { IfOk result (λ path. path.items ≡ log_of folder.now) }
{
    let mut path = folder.to_vec(alloc)?;
    path.extend_from_slice(LOG)?;
    Ok(path)
}
