//! The paths of files: words of the command line, or lines of a list.
ghost use Rattle.std.specs.Prelude.{string_bytes};

use crate::inputs::{MAX_INPUT, read_given};
use cmd_status::{Fault, PacketName};
use cmd_words::Paths;
use echo_charset::push_word;
use std::alloc::AllocError;
use std::str;

/// The end of each path in a list that has this byte. In other lists it is 0A.
const NUL: u8 = 0;

/// The path of a file as it is printed. A path that is no UTF-8 is printed escaped, and cannot be opened.
#[derive(Drop)]
pub struct PathName {
    shown: String,
    is_text: bool,
}

impl PathName {
    /// The path as it is printed.
    pub fn shown(&self) -> &str {
        self.shown.as_str()
    }

    /// The path to open.
    pub fn path(&self) -> Result<&str, Fault<'_>> {
        PacketName::path(self)
    }
}

impl PacketName for PathName {
    ghost path = { λ name. string_bytes name.shown };

    ghost is_usable = { λ name. name.is_text };

    fn path(&self) -> Result<&str, Fault<'_>> {
        let path = self.shown.as_str();
        if self.is_text {
            Ok(path)
        } else {
            Err(Fault::CannotUse(path))
        }
    }
}

/// The named files, or none and why the list of them was not read.
#[derive(Drop)]
pub struct PathNames<'a> {
    pub names: Vec<PathName>,
    pub stopped: Option<Fault<'a>>,
}

/// The files that are named by words or by a list.
pub fn path_names<'a>(rt: &HostRuntime, paths: &Paths<'a>) -> PathNames<'a> {
    let found = match paths.from {
        Some(list) => listed_names(rt, list),
        None => given_names(rt, paths.words.as_slice()),
    };
    match found {
        Ok(names) => PathNames {
            names,
            stopped: None,
        },
        Err(fault) => PathNames {
            names: Vec::new(rt.alloc()),
            stopped: Some(fault),
        },
    }
}

fn given_names<'a>(rt: &HostRuntime, words: &[&str]) -> Result<Vec<PathName>, Fault<'a>> {
    let mut names = Vec::new(rt.alloc());
    for word in words {
        names.push(text_name(rt, *word)?)?;
    }
    Ok(names)
}

// The names in a list: each ends in 00 if the list has this byte, else each has a line. Empty ones are skipped.
fn listed_names<'a>(rt: &HostRuntime, list: &'a str) -> Result<Vec<PathName>, Fault<'a>> {
    let bytes = read_given(rt, list, MAX_INPUT)?;
    Ok(names_in(rt, &bytes)?)
}

fn names_in(rt: &HostRuntime, list: &[u8]) -> Result<Vec<PathName>, AllocError> {
    let mut names = Vec::new(rt.alloc());
    let end = if list.contains(&NUL) { NUL } else { b'\n' };
    for path in list.split(|byte| *byte == end) {
        if !path.is_empty() {
            names.push(name_of(rt, path)?)?;
        }
    }
    Ok(names)
}

fn name_of(rt: &HostRuntime, path: &[u8]) -> Result<PathName, AllocError> {
    match str::from_utf8(path) {
        Ok(text) => text_name(rt, text),
        Err(_) => escaped_name(rt, path),
    }
}

fn text_name(rt: &HostRuntime, text: &str) -> Result<PathName, AllocError> {
    Ok(PathName {
        shown: String::from_str(rt.alloc(), text)?,
        is_text: true,
    })
}

fn escaped_name(rt: &HostRuntime, path: &[u8]) -> Result<PathName, AllocError> {
    let mut bytes = Vec::new(rt.alloc());
    push_word(&mut bytes, path)?;
    Ok(PathName {
        shown: String::from_str(rt.alloc(), str::from_utf8(&bytes).unwrap_or(""))?,
        is_text: false,
    })
}

/// A path as text. One that is no UTF-8 becomes the empty path, which no file has.
pub fn text_path(path: &[u8]) -> &str {
    str::from_utf8(path).unwrap_or("")
}

/// The path of a folder, ended by a slash.
pub fn folder_path(rt: &HostRuntime, folder: &str) -> Result<String, AllocError> {
    let mut path = String::from_str(rt.alloc(), folder)?;
    if !folder.ends_with('/') {
        path.push('/')?;
    }
    Ok(path)
}
