//! The systems that the words of a command name, and the files of the assumed ones.
ghost use Rattle.std.specs.Prelude.{◌≡◌, IfOk, Ok, length, vec_len};
ghost use Rattle.cmd_net.specs.Answered.{judged_status, supposing};

use cmd_check::Judged;
use cmd_status::{Fault, Status, parse_address};
use cmd_suppose::{Supposed, SupposedHere, suppose};
use disk_io::Sink;
use echo_addr::{Address, Items};
use std::alloc::Global;
use std::io::Write;

/// These systems.
pub(crate) fn supposed<'s>(
    named: &'s [Address],
    missing: bool,
    without: &'s [Address],
) -> Supposed<'s>
    ensures named { result.named.now ≡ named.now }
    ensures missing { result.missing ≡ missing }
    ensures without { result.without.now ≡ without.now }
{
    Supposed {
        named,
        missing,
        without,
    }
}

/// Whether a system is judged without its file, or left out.
pub(crate) fn supposes(supposed: Supposed<'_>) -> bool
    ensures { result ≡ supposing supposed.entry.named.now supposed.entry.missing supposed.entry.without.now }
{
    supposed.missing || !supposed.named.is_empty() || !supposed.without.is_empty()
}

pub(crate) fn addresses_in<'a>(rt: &HostRuntime, words: &[&str]) -> Result<Vec<Address>, Fault<'a>>
    ensures { IfOk result (λ addresses. vec_len addresses ≡ length words.now) }
{
    let mut addresses = Vec::new(rt.alloc());
    for word in words {
        addresses.push(parse_address(*word)?)?;
    }
    Ok(addresses)
}

/// The status of an answer. An unknown address is reported.
pub(crate) fn status_of<E: Sink>(judged: Judged, errors: &mut E) -> Status
    ensures { result ≡ judged_status (Ok judged) }
{
    match judged {
        Judged::Ended(status) => status,
        Judged::Unknown(address) => {
            let _ = writeln!(errors, "echonet: unknown address {address}");
            Status::Refused
        }
    }
}

/// Adds the texts of the assumed systems to those of the files, if all were read.
pub(crate) fn add_supposed<'a>(
    alloc: Global,
    tag: &str,
    files: &mut Vec<Items<u8>>,
    supposed: Supposed<'_>,
    are_read: bool,
) -> Result<SupposedHere, Fault<'a>> {
    if are_read && supposes(supposed) {
        suppose(alloc, tag.as_bytes(), files, supposed)
    } else {
        Ok(SupposedHere {
            systems: Vec::new(alloc),
            unseen: Vec::new(alloc),
        })
    }
}
