//! The commands `show` and `nodelist`.

use cmd_input::{MAX_INPUT, read_file, read_given};
use cmd_show::{nodelist, show};
use cmd_status::{Fault, Status, parse_address};
use disk_io::Sink;

/// `show [--hex] [--text] PACKET`
pub(crate) fn run_show<'a, W: Sink>(
    rt: &HostRuntime,
    hex: bool,
    full: bool,
    packet: &'a str,
    out: &mut W,
) -> Result<Status, Fault<'a>> {
    let input = read_given(rt, packet, MAX_INPUT)?;
    show(rt.alloc(), hex, full, &input, out)
}

/// `nodelist [--find ADDRESS] FILE`: the address is judged first, then the file.
pub(crate) fn run_nodelist<'a, W: Sink>(
    rt: &HostRuntime,
    find: Option<&'a str>,
    file: &'a str,
    out: &mut W,
) -> Result<Status, Fault<'a>> {
    let address = match find {
        Some(word) => Some(parse_address(word)?),
        None => None,
    };
    let input = read_file(rt, file, MAX_INPUT)?;
    nodelist(rt.alloc(), address, &input, out)
}
