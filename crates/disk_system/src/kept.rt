//! Files that stay open between calls, so that many reads and writes open a file once.
use std::mem;

/// A longer path is opened at each call.
const LONGEST: usize = 250;

#[derive(Drop)]
pub(crate) struct Placed<F: Drop> {
    pub(crate) file: F,
    pub(crate) at: u64,
}

#[derive(Drop)]
struct KeptFile<F: Drop> {
    path: [u8; LONGEST],
    len: usize,
    placed: Placed<F>,
}

/// The three files that were read last, since a look at a base folder reads three, and the two that were written last.
#[derive(Drop)]
pub(crate) struct KeptFiles<F: Drop> {
    read: Option<KeptFile<F>>,
    read_before: Option<KeptFile<F>>,
    read_first: Option<KeptFile<F>>,
    written: Option<KeptFile<F>>,
    written_before: Option<KeptFile<F>>,
}

fn take<F: Drop>(kept: &mut Option<KeptFile<F>>, path: &[u8]) -> Option<Placed<F>> {
    let found = kept.take()?;
    if found.path.get(..found.len) == Some(path) {
        return Some(found.placed);
    }
    *kept = Some(found);
    None
}

fn with_path<F: Drop>(path: &[u8], placed: Placed<F>) -> Option<KeptFile<F>> {
    if path.len() > LONGEST {
        return None;
    }
    let mut kept = [0u8; LONGEST];
    kept[..path.len()].copy_from_slice(path);
    Some(KeptFile {
        path: kept,
        len: path.len(),
        placed,
    })
}

impl<F: Drop> KeptFiles<F> {
    pub(crate) fn none() -> KeptFiles<F> {
        KeptFiles {
            read: None,
            read_before: None,
            read_first: None,
            written: None,
            written_before: None,
        }
    }

    pub(crate) fn take_read(&mut self, path: &[u8]) -> Option<Placed<F>> {
        let last = take(&mut self.read, path);
        if last.is_some() {
            return last;
        }
        let before = take(&mut self.read_before, path);
        if before.is_some() {
            return before;
        }
        take(&mut self.read_first, path)
    }

    pub(crate) fn keep_read(&mut self, path: &[u8], placed: Placed<F>) {
        let last = mem::replace(&mut self.read, with_path(path, placed));
        if last.is_some() {
            let before = mem::replace(&mut self.read_before, last);
            if before.is_some() {
                self.read_first = before;
            }
        }
    }

    pub(crate) fn take_written(&mut self, path: &[u8]) -> Option<Placed<F>> {
        let last = take(&mut self.written, path);
        if last.is_some() {
            return last;
        }
        take(&mut self.written_before, path)
    }

    pub(crate) fn keep_written(&mut self, path: &[u8], placed: Placed<F>) {
        let last = mem::replace(&mut self.written, with_path(path, placed));
        if last.is_some() {
            self.written_before = last;
        }
    }
}
