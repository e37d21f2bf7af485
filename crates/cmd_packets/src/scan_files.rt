//! The files of the system for a scan. Staging files of packets belong to their owner alone, and replace no file
//! except one that a stopped run left. The base is replaced as in `base_files`. The path of a failed call is noted
//! for the report. If the folder gives a packet no second path, that is the folder.

use cmd_base::{BaseFiles, system_error, target_staging};
use cmd_input::Progress;
use disk_system::{check_left, make_new};
use std::alloc::Allocator;
use std::cell::Cell;
use std::fs::{File, Metadata, OpenOptions};
use std::io;
use std::io::ErrorKind;
use std::rt::Files;

/// The end of a packet's path.
const PACKET: &str = ".pkt";

/// How a scan ended.
pub trait ScanEnd {
    // The base is as before the scan, so no message in a packet that it staged counts as scanned.
    ghost is_undone: { Self → Type 0 };
}

/// The files of the system, for a scan of this base file into this folder. The folder's path ends in a slash.
#[derive(Drop)]
pub struct ScanFiles<'p, 'r> {
    rt: &'r HostRuntime,
    bases: BaseFiles<'r>,
    base: &'p str,
    folder: &'p str,
    progress: &'p Progress<'r>,
    packets: Cell<usize>,
    written: Cell<usize>,
    // The staging files of packets.
    made: Cell<Option<Vec<String>>>,
    // Where the first call failed, and the packet's path that another file has.
    failed: Cell<Option<String>>,
    taken: Cell<Option<String>>,
}

/// What a path is to a scan.
#[derive(Clone, Copy)]
enum Role<'q> {
    /// The path at which the folder is tried for a second path. It is no staging path.
    Trial,
    Packet(&'q str),
    Other,
}

impl<'p, 'r> ScanFiles<'p, 'r> {
    pub fn new(
        rt: &'r HostRuntime,
        base: &'p str,
        folder: &'p str,
        progress: &'p Progress<'r>,
    ) -> ScanFiles<'p, 'r> {
        ScanFiles {
            rt,
            bases: BaseFiles::new(rt),
            base,
            folder,
            progress,
            packets: Cell::new(0),
            written: Cell::new(0),
            made: Cell::new(Some(Vec::new(rt.alloc()))),
            failed: Cell::new(None),
            taken: Cell::new(None),
        }
    }

    /// Removes the staging file of the base, unless it replaced the base file.
    pub fn tidy(&self) {
        self.bases.tidy();
    }

    /// Removes the staging files of packets, after a scan that left the base as it was. Otherwise they may be the only
    /// copies of scanned messages, and stay until the next scan.
    pub fn remove_made<E: ScanEnd>(&self, _end: &E)
        requires { E.is_undone _end.now }
    {
        if let Some(made) = self.made.take() {
            for path in &made {
                let _ = self.rt.remove_file(path.as_str());
            }
        }
    }

    /// The path at which the first call failed.
    pub fn failed_path(&self) -> Option<String> {
        self.failed.take()
    }

    /// The path of a packet that another file has.
    pub fn taken_path(&self) -> Option<String> {
        self.taken.take()
    }

    fn role_of<'q>(&self, path: &'q str) -> Role<'q> {
        let target = target_staging(path);
        if target == Some(self.folder) {
            return Role::Trial;
        }
        let packet = target.unwrap_or(path);
        if self.is_packet(packet) {
            Role::Packet(packet)
        } else {
            Role::Other
        }
    }

    fn is_packet(&self, path: &str) -> bool {
        match path.strip_prefix(self.folder) {
            Some(name) => path != self.base && !name.contains('/') && name.ends_with(PACKET),
            None => false,
        }
    }

    fn keep(&self, cell: &Cell<Option<String>>, path: &str) {
        let kept = match cell.take() {
            Some(kept) => Some(kept),
            None => String::from_str(self.rt.alloc(), path).ok(),
        };
        cell.set(kept);
    }

    // Makes the staging file of a packet. If memory for the path lacks, that file stays until the next scan.
    fn make_packet(&self, path: &str) -> io::Result<File> {
        let file = make_new(self.rt, path)?;
        if let Some(mut made) = self.made.take() {
            if let Ok(kept) = String::from_str(self.rt.alloc(), path) {
                let _ = made.push(kept);
            }
            self.made.set(Some(made));
        }
        Ok(file)
    }

    fn note<T: Drop>(&self, path: &str, answer: io::Result<T>) -> io::Result<T> {
        if answer.is_err() {
            self.keep(&self.failed, path);
        }
        answer
    }

    // The packet has only its own path, which belongs to nothing else.
    fn is_named(&self, packet: &str) {
        let taken = self.taken.take();
        self.taken
            .set(taken.filter(|taken| taken.as_str() != packet));
    }

    fn note_found<T: Drop>(&self, path: &str, answer: io::Result<T>) -> io::Result<T> {
        match answer {
            Err(error) if error.kind() == ErrorKind::NotFound => Err(error),
            other => self.note(path, other),
        }
    }

    fn tell(&self) {
        let written = self.written.get().saturating_add(1);
        self.written.set(written);
        if self.progress.is_due() {
            self.progress.tell_written(written, self.packets.get());
        }
    }

    // A missing folder has no files: then the folder above it is opened.
    fn open(&self, how: &OpenOptions, path: &str) -> io::Result<File> {
        match self.bases.open_file(how, path) {
            Err(error) if error.kind() == ErrorKind::NotFound && path == self.folder => {
                self.rt.open_file(how, ".")
            }
            opened => opened,
        }
    }

    fn open_packet(&self, how: &OpenOptions, path: &str) -> io::Result<File> {
        if how.asks_create_new() {
            self.tell();
            return self.make_packet(path);
        }
        self.rt.open_file(how, path)
    }

    // Whatever has the path of a packet is found, a symbolic link too. Packets without one are counted.
    fn find_packet(&self, path: &str) -> io::Result<Metadata> {
        let found = self.rt.symlink_metadata(path);
        if target_staging(path).is_none() {
            match found {
                Ok(_) => self.keep(&self.taken, path),
                Err(_) => self.packets.set(self.packets.get().saturating_add(1)),
            }
        }
        found
    }

    // Removes a file of a packet. One at its staging path stays, unless a stopped run left it.
    fn remove_packet(&self, path: &str) -> io::Result<()> {
        self.rt.symlink_metadata(path)?;
        if let Some(start) = nodes_of(path) {
            check_left(self.rt.alloc(), self.rt, path, &start).map_err(system_error)?;
        }
        self.rt.remove_file(path)
    }
}

fn remove_left(rt: &HostRuntime, path: &str) -> io::Result<()> {
    check_left(rt.alloc(), rt, path, b"").map_err(system_error)?;
    rt.remove_file(path)
}

fn last_number(name: &str) -> Option<u16> {
    let (_, number) = name.rsplit_once('.')?;
    number.parse::<u16>().ok()
}

// The bytes by which a staged packet is recognized: the nodes of the system that scans and of the other, which it has in
// it.
fn nodes_of(path: &str) -> Option<[u8; 4]> {
    let (packet, own) = path.strip_suffix("~.new")?.rsplit_once(".~")?;
    let (to, _) = packet.strip_suffix(PACKET)?.rsplit_once('.')?;
    let from = last_number(own)?.to_le_bytes();
    let to = last_number(to)?.to_le_bytes();
    Some([from[0], from[1], to[0], to[1]])
}

impl Files for ScanFiles<'_, '_> {
    type File = File;

    type Dir = <HostRuntime as Files>::Dir;

    fn open_file(&self, how: &OpenOptions, path: &str) -> io::Result<File> {
        let opened = match self.role_of(path) {
            Role::Packet(_) => self.open_packet(how, path),
            Role::Trial | Role::Other => self.open(how, path),
        };
        self.note(path, opened)
    }

    fn open_dir(&self, path: &str) -> io::Result<<HostRuntime as Files>::Dir> {
        self.rt.open_dir(path)
    }

    fn metadata(&self, path: &str) -> io::Result<Metadata> {
        match self.role_of(path) {
            Role::Trial => self.note_found(self.folder, self.rt.symlink_metadata(path)),
            Role::Packet(_) => self.note_found(path, self.find_packet(path)),
            Role::Other => self.note_found(path, self.bases.metadata(path)),
        }
    }

    fn symlink_metadata(&self, path: &str) -> io::Result<Metadata> {
        self.rt.symlink_metadata(path)
    }

    fn copy(&self, from: &str, to: &str) -> io::Result<u64> {
        self.rt.copy(from, to)
    }

    fn rename(&self, from: &str, to: &str) -> io::Result<()> {
        self.note(to, self.bases.rename(from, to))
    }

    fn hard_link(&self, original: &str, link: &str) -> io::Result<()> {
        match self.rt.hard_link(original, link) {
            Err(error) if error.kind() == ErrorKind::AlreadyExists => Err(error),
            linked => match self.role_of(link) {
                Role::Trial => self.note(self.folder, linked),
                Role::Packet(_) | Role::Other => self.note(link, linked),
            },
        }
    }

    fn remove_file(&self, path: &str) -> io::Result<()> {
        match self.role_of(path) {
            Role::Trial => self.note_found(self.folder, remove_left(self.rt, path)),
            Role::Packet(packet) => {
                self.is_named(packet);
                self.note_found(path, self.remove_packet(path))
            }
            Role::Other => self.note_found(path, self.bases.remove_file(path)),
        }
    }

    fn create_dir(&self, path: &str) -> io::Result<()> {
        self.rt.create_dir(path)
    }

    fn remove_dir(&self, path: &str) -> io::Result<()> {
        self.rt.remove_dir(path)
    }

    fn remove_dir_all<B: Allocator>(&self, alloc: B, path: &str) -> io::Result<()> {
        self.rt.remove_dir_all(alloc, path)
    }
}
