//! Where a station with a base folder is.

/// The paths of a station: its link file, its base folder, and the prefix of the folder's files, which ends in a slash.
/// The lock of the folder goes by its path as it was given.
#[derive(Clone, Copy, Debug)]
pub struct FolderPlace<'a> {
    pub links: &'a str,
    pub base: &'a str,
    pub path: &'a [u8],
}

/// What a program found of a folder: whether it has foreign files, and the two halves of a key for digests. A folder
/// without messages gets this key.
#[derive(Clone, Copy, Debug)]
pub struct FolderProbe {
    pub strange: bool,
    pub key: (u64, u64),
}
