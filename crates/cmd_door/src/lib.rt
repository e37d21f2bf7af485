//! The messages of a base, passed to whoever works on them. A source of messages of the system is a large value: each
//! function that owns one has to be proved to drop it, field by field. So these functions own it, and no others do. They
//! are proved to be safe and to end, and no more. Begin with `with_base`.
#![tactic(auto)]

mod reported;

use base_folder::{Distinct, MessageSource};
use cmd_base::{hash_state, is_folder, load_file, open_folder};
use cmd_input::Progress;
use cmd_status::Fault;
pub use reported::with_reported;

/// Work on the messages of a base, of whatever kind.
pub trait UseMessages<'a> {
    type Answer;

    fn run<M: MessageSource>(&mut self, messages: &mut M) -> Result<Self::Answer, Fault<'a>>
        requires { (M.state messages.old).is_ready };
}

/// Opens the base with this path, and works on its messages. Each message of a folder is judged from this number on.
pub fn with_base<'a, U: UseMessages<'a>>(
    rt: &HostRuntime,
    base: &'a str,
    first: u64,
    user: &mut U,
) -> Result<U::Answer, Fault<'a>> {
    if is_folder(rt, base) {
        with_folder(rt, base, first, None, user)
    } else {
        with_file(rt, base, user)
    }
}

/// The same of a base folder.
pub fn with_folder<'a, U: UseMessages<'a>>(
    rt: &HostRuntime,
    base: &'a str,
    first: u64,
    progress: Option<&Progress<'_>>,
    user: &mut U,
) -> Result<U::Answer, Fault<'a>> {
    match open_folder(rt, base, first, progress) {
        Ok(mut messages) => user.run(&mut messages),
        Err(fault) => Err(fault),
    }
}

/// The same of a base file.
pub fn with_file<'a, U: UseMessages<'a>>(
    rt: &HostRuntime,
    base: &'a str,
    user: &mut U,
) -> Result<U::Answer, Fault<'a>> {
    match load_file(rt, base) {
        Ok(mut messages) => user.run(&mut messages),
        Err(fault) => Err(fault),
    }
}

/// The same of a base folder, with each message once.
pub fn with_distinct<'a, U: UseMessages<'a>>(
    rt: &HostRuntime,
    base: &'a str,
    user: &mut U,
) -> Result<U::Answer, Fault<'a>> {
    let hasher = hash_state(rt)?;
    match open_folder(rt, base, 0, None) {
        Ok(messages) => {
            let mut messages = Distinct::new(rt.alloc(), messages, hasher);
            user.run(&mut messages)
        }
        Err(fault) => Err(fault),
    }
}
