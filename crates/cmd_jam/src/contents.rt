//! What the files of a JAM base hold before a command adds to them.

use crate::named::{bytes_of, open_file};
use disk_system::OutputFault;
use echo_jam::{Standing, read_standing};
use std::fs::File;

#[derive(Drop)]
pub(crate) struct OtherFiles {
    pub(crate) texts: File,
    pub(crate) index: File,
}

/// The bytes of the index, where the texts end, and what the base has.
#[derive(Drop)]
pub(crate) struct Contents {
    pub(crate) entries: Vec<u8>,
    pub(crate) texts_end: u64,
    pub(crate) standing: Standing,
}

impl OtherFiles {
    pub(crate) fn open(rt: &HostRuntime, path: &str) -> Result<OtherFiles, OutputFault> {
        let texts = open_file(rt, path, ".jdt")?;
        match open_file(rt, path, ".jdx") {
            Ok(index) => Ok(OtherFiles { texts, index }),
            Err(fault) => Err(fault),
        }
    }

    /// Reads the index, with these headers. A base that is not whole cannot be used.
    pub(crate) fn read(&self, rt: &HostRuntime, headers: &[u8]) -> Result<Contents, OutputFault> {
        let entries = bytes_of(rt, &self.index)?;
        match self.standing(headers, &entries) {
            Ok((texts_end, standing)) => Ok(Contents {
                entries,
                texts_end,
                standing,
            }),
            Err(fault) => Err(fault),
        }
    }

    // Where the texts end, and what the base has.
    fn standing(&self, headers: &[u8], entries: &[u8]) -> Result<(u64, Standing), OutputFault> {
        let texts_end = self.texts.metadata()?.len();
        match read_standing(headers, entries, texts_end) {
            Some(standing) => Ok((texts_end, standing)),
            None => Err(OutputFault::Device),
        }
    }
}
