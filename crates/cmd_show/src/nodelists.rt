//! `nodelist`: the entries of a nodelist, and its checksum.

ghost use Rattle.std.specs.Prelude.{◌≡◌, IfErr, OnOk};
ghost use Rattle.cmd_status.specs.{Devices.output_of, Ended.Stops};
ghost use Rattle.cmd_show.specs.Nodelists.{NodelistAnswers, crc_status};

use cmd_print::{push_crc, push_entry, push_found, push_list_total};
use cmd_status::{Fault, Status, flush_piece, print_rest};
use disk_io::Sink;
use echo_addr::Address;
use echo_nodelist::{CrcLine, Nodelist, crc_line};
use std::alloc::Global;

/// `nodelist [--find ADDRESS] FILE`: prints what the nodelist states of its checksum, and its entries
/// or the one with the address. Of a faulty nodelist nothing is printed.
pub fn nodelist<'a, W: Sink>(
    alloc: Global,
    find: Option<Address>,
    input: &[u8],
    out: &mut W,
) -> Result<Status, Fault<'a>>
    ensures { NodelistAnswers input.now (output_of W.contents W.failures W.holds out.old) (output_of W.contents W.failures W.holds out.new) result }
{
    let list = Nodelist::read(alloc, input)?;
    let stated = crc_line(input);
    let mut lines = Vec::new(alloc);
    print_list(find, &list, stated, &mut lines, out)?;
    print_rest(&mut lines, out)?;
    Ok(status_of(stated))
}

fn status_of(line: CrcLine) -> Status
    ensures { result ≡ crc_status line }
{
    match line {
        CrcLine::Mismatch { .. } => Status::Differs,
        _ => Status::Good,
    }
}

fn print_list<'a, W: Sink>(
    find: Option<Address>,
    list: &Nodelist,
    stated: CrcLine,
    lines: &mut Vec<u8>,
    out: &mut W,
) -> Result<(), Fault<'a>>
    ensures ok { OnOk result (W.failures out.new ≡ W.failures out.old) }
    ensures err { IfErr result (Stops (W.failures out.old) (W.failures out.new)) }
{
    push_crc(lines, stated)?;
    match find {
        Some(address) => Ok(push_found(lines, list, address)?),
        None => print_entries(list, lines, out),
    }
}

// A Note has no address.
fn print_entries<'a, W: Sink>(
    list: &Nodelist,
    lines: &mut Vec<u8>,
    out: &mut W,
) -> Result<(), Fault<'a>>
    ensures ok { OnOk result (W.failures out.new ≡ W.failures out.old) }
    ensures err { IfErr result (Stops (W.failures out.old) (W.failures out.new)) }
{
    'entries: for (i, line) in list.lines().iter().enumerate() {
        if let Some(address) = list.address_of(i) {
            push_entry(lines, address, line)?;
            flush_piece(lines, out)?;
        }
    }
    push_list_total(lines, list)?;
    Ok(())
}
