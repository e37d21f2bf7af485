//! A file system in memory, of which some calls fail.

use std::alloc::{AllocError, Allocator, Global};
use std::cell::{RefCell, RefMut};
use std::fs::{Metadata, OpenFile, OpenOptions, Permissions};
use std::io;
use std::io::{Empty, ErrorKind, Read, Seek, SeekFrom, Write};
use std::rt::Files;

/// How many bytes a write takes at most.
const PIECE: usize = 4;

const FOLDER: &str = ".";

#[derive(Drop)]
struct FileContent {
    name: String,
    bytes: Vec<u8>,
}

/// The files, how many calls came, and which of them fail.
#[derive(Drop)]
pub struct FilesState {
    alloc: Global,
    files: Vec<FileContent>,
    calls: u64,
    from: u64,
    to: u64,
    pub flushed_at: Option<u64>,
    /// Before this call another program cuts all files to so many bytes.
    pub cut: Option<(u64, usize)>,
}

impl FilesState {
    /// No files; the calls from this number on and before that one fail.
    pub fn new(alloc: Global, from: u64, to: u64) -> FilesState {
        FilesState {
            alloc,
            files: Vec::new(alloc),
            calls: 0,
            from,
            to,
            flushed_at: None,
            cut: None,
        }
    }

    /// Puts a file there.
    pub fn put(&mut self, name: &str, bytes: &[u8]) -> Result<(), AllocError> {
        let name = String::from_str(self.alloc, name)?;
        let bytes = Vec::from_slice(self.alloc, bytes)?;
        self.files.push(FileContent { name, bytes })?;
        Ok(())
    }

    fn place(&self, name: &str) -> Option<usize> {
        self.files
            .iter()
            .position(|kept| kept.name.as_str() == name)
    }

    /// The bytes of the file, if there is one.
    pub fn bytes(&self, name: &str) -> Option<&[u8]> {
        let place = self.place(name)?;
        let kept = self.files.get(place)?;
        Some(kept.bytes.as_slice())
    }

    fn size(&self, name: &str) -> io::Result<usize> {
        match self.bytes(name) {
            Some(bytes) => Ok(bytes.len()),
            None => Err(io::Error::from(ErrorKind::NotFound)),
        }
    }

    fn bytes_mut(&mut self, name: &str) -> io::Result<&mut Vec<u8>> {
        match self.place(name) {
            Some(place) => match self.files.get_mut(place) {
                Some(kept) => Ok(&mut kept.bytes),
                None => Err(io::Error::from(ErrorKind::NotFound)),
            },
            None => Err(io::Error::from(ErrorKind::NotFound)),
        }
    }

    fn remove(&mut self, name: &str) -> io::Result<()> {
        match self.place(name) {
            Some(place) if place < self.files.len() => {
                self.files.remove(place);
                Ok(())
            }
            _ => Err(io::Error::from(ErrorKind::NotFound)),
        }
    }

    fn cut_all(&mut self, len: usize) {
        for kept in self.files.iter_mut() {
            kept.bytes.truncate(len);
        }
    }

    fn count(&mut self) -> io::Result<()> {
        let call = self.calls;
        self.calls = call.saturating_add(1);
        if let Some((at, len)) = self.cut {
            if call == at {
                self.cut_all(len);
            }
        }
        if self.from <= call && call < self.to {
            return Err(io::Error::from(ErrorKind::Other));
        }
        Ok(())
    }
}

/// The file system of a state.
#[derive(Clone, Copy)]
pub struct Disk<'a> {
    state: &'a RefCell<FilesState>,
}

impl<'a> Disk<'a> {
    pub fn new(state: &'a RefCell<FilesState>) -> Disk<'a> {
        Disk { state }
    }
}

fn called<'b>(state: &'b RefCell<FilesState>) -> io::Result<RefMut<'b, FilesState>> {
    match state.try_borrow_mut() {
        Ok(mut state) => {
            state.count()?;
            Ok(state)
        }
        Err(_) => Err(io::Error::from(ErrorKind::Other)),
    }
}

/// An open file of a disk.
#[derive(Drop)]
pub struct Opened<'a> {
    state: &'a RefCell<FilesState>,
    name: String,
    at: usize,
}

impl Read for Opened<'_> {
    fn read(&mut self, buf: &mut [u8]) -> io::Result<usize> {
        let state = called(self.state)?;
        let rest = match state.bytes(self.name.as_str()) {
            Some(bytes) => bytes.get(self.at..).unwrap_or(&[]),
            None => return Err(io::Error::from(ErrorKind::NotFound)),
        };
        let count = rest.len().min(buf.len());
        buf[..count].copy_from_slice(&rest[..count]);
        self.at = self.at.saturating_add(count);
        Ok(count)
    }
}

impl Write for Opened<'_> {
    fn write(&mut self, buf: &[u8]) -> io::Result<usize> {
        let mut state = called(self.state)?;
        let count = buf.len().min(PIECE);
        state
            .bytes_mut(self.name.as_str())?
            .extend_from_slice(&buf[..count])?;
        Ok(count)
    }

    fn flush(&mut self) -> io::Result<()> {
        Ok(())
    }
}

impl Seek for Opened<'_> {
    fn seek(&mut self, _to: SeekFrom) -> io::Result<u64> {
        Err(io::Error::from(ErrorKind::Unsupported))
    }
}

impl OpenFile for Opened<'_> {
    fn metadata(&self) -> io::Result<Metadata> {
        let state = called(self.state)?;
        Ok(Metadata::of_file(state.size(self.name.as_str())? as u64))
    }

    fn set_len(&self, _size: u64) -> io::Result<()> {
        Err(io::Error::from(ErrorKind::Unsupported))
    }

    fn sync_all(&self) -> io::Result<()> {
        let mut state = called(self.state)?;
        if self.name.as_str() == FOLDER {
            state.flushed_at = Some(state.calls);
        }
        Ok(())
    }

    fn sync_data(&self) -> io::Result<()> {
        called(self.state)?;
        Ok(())
    }

    fn set_permissions(&self, _perm: Permissions) -> io::Result<()> {
        Err(io::Error::from(ErrorKind::Unsupported))
    }
}

impl<'a> Files for Disk<'a> {
    type File = Opened<'a>;

    type Dir = Empty;

    fn open_file(&self, how: &OpenOptions, path: &str) -> io::Result<Opened<'a>> {
        let mut state = called(self.state)?;
        let there = path == FOLDER || state.bytes(path).is_some();
        if how.asks_create_new() && there {
            return Err(io::Error::from(ErrorKind::AlreadyExists));
        }
        if how.asks_create_new() {
            state.put(path, &[])?;
        } else if !there {
            return Err(io::Error::from(ErrorKind::NotFound));
        }
        let name = String::from_str(state.alloc, path)?;
        Ok(Opened {
            state: self.state,
            name,
            at: 0,
        })
    }

    fn open_dir(&self, _path: &str) -> io::Result<Empty> {
        Err(io::Error::from(ErrorKind::Unsupported))
    }

    fn metadata(&self, path: &str) -> io::Result<Metadata> {
        let state = called(self.state)?;
        Ok(Metadata::of_file(state.size(path)? as u64))
    }

    fn symlink_metadata(&self, path: &str) -> io::Result<Metadata> {
        self.metadata(path)
    }

    fn copy(&self, _from: &str, _to: &str) -> io::Result<u64> {
        Err(io::Error::from(ErrorKind::Unsupported))
    }

    fn rename(&self, _from: &str, _to: &str) -> io::Result<()> {
        Err(io::Error::from(ErrorKind::Unsupported))
    }

    fn hard_link(&self, original: &str, link: &str) -> io::Result<()> {
        let mut state = called(self.state)?;
        if state.bytes(link).is_some() {
            return Err(io::Error::from(ErrorKind::AlreadyExists));
        }
        let bytes = match state.bytes(original) {
            Some(bytes) => Vec::from_slice(state.alloc, bytes)?,
            None => return Err(io::Error::from(ErrorKind::NotFound)),
        };
        state.put(link, &bytes)?;
        Ok(())
    }

    fn remove_file(&self, path: &str) -> io::Result<()> {
        called(self.state)?.remove(path)
    }

    fn create_dir(&self, _path: &str) -> io::Result<()> {
        Err(io::Error::from(ErrorKind::Unsupported))
    }

    fn remove_dir(&self, _path: &str) -> io::Result<()> {
        Err(io::Error::from(ErrorKind::Unsupported))
    }

    fn remove_dir_all<B: Allocator>(&self, _alloc: B, _path: &str) -> io::Result<()> {
        Err(io::Error::from(ErrorKind::Unsupported))
    }
}
