//! The paths of files in a folder.

use cmd_input::folder_path;
use std::alloc::AllocError;

/// The path of the file with this name in a folder.
pub(crate) fn file_path(rt: &HostRuntime, folder: &str, name: &str) -> Result<String, AllocError> {
    let mut path = folder_path(rt, folder)?;
    path.push_str(name)?;
    Ok(path)
}
