//! What stands at a path that cannot be used.

use crate::reasons::{PathState, State};
use disk_system::parent_path;
use std::fs::Metadata;
use std::io::ErrorKind;
use std::{fs, io};

/// How a command uses a path.
#[derive(Clone, Copy, PartialEq, Eq)]
pub(crate) enum Usage {
    File,
    /// It reads a base, which is a file or a folder.
    Base,
    /// It changes a base, and makes a file where there is none.
    Changed,
    Folder,
    New,
}

/// Why a command cannot use this path: the state of the path, or of its folder. None if the reason is not known.
pub(crate) fn state_at<'a>(rt: &HostRuntime, path: &'a str, usage: Usage) -> Option<PathState<'a>> {
    match fs::metadata(rt, path) {
        Ok(found) => {
            let state = state_of(rt, path, &found, usage)?;
            Some(PathState { path, state })
        }
        Err(error) => missing_at(rt, &error, path, usage),
    }
}

fn missing_at<'a>(
    rt: &HostRuntime,
    error: &io::Error,
    path: &'a str,
    usage: Usage,
) -> Option<PathState<'a>> {
    let state = match error.kind() {
        ErrorKind::NotFound | ErrorKind::NotADirectory => match usage {
            Usage::File | Usage::Base => State::NoFile,
            Usage::Folder => State::NoFolder,
            Usage::Changed | Usage::New => return no_folder(rt, parent_path(path)),
        },
        ErrorKind::PermissionDenied => State::Denied,
        _ => return None,
    };
    Some(PathState { path, state })
}

fn no_folder<'a>(rt: &HostRuntime, folder: &'a str) -> Option<PathState<'a>> {
    let state = match fs::metadata(rt, folder) {
        Ok(found) if found.is_dir() => return None,
        Ok(_) => State::NotFolder,
        Err(_) => State::NoFolder,
    };
    Some(PathState {
        path: folder,
        state,
    })
}

fn state_of(rt: &HostRuntime, path: &str, found: &Metadata, usage: Usage) -> Option<State> {
    match usage {
        Usage::File if found.is_dir() => Some(State::IsFolder),
        Usage::Folder if !found.is_dir() => Some(State::NotFolder),
        Usage::New => Some(State::Exists),
        Usage::Changed if found.permissions().readonly() => Some(State::Denied),
        _ if is_denied(rt, path, found) => Some(State::Denied),
        _ => None,
    }
}

// To open a pipe would wait for a writer.
fn is_denied(rt: &HostRuntime, path: &str, found: &Metadata) -> bool {
    if found.is_dir() {
        match fs::read_dir(rt, path) {
            Err(error) => error.kind() == ErrorKind::PermissionDenied,
            Ok(_) => false,
        }
    } else if found.is_file() {
        match fs::open(rt, path) {
            Err(error) => error.kind() == ErrorKind::PermissionDenied,
            Ok(_) => false,
        }
    } else {
        false
    }
}
