//! The lines of faults that no row of examples/cases shows.
use base_file::BaseFault;
use cmd_status::Fault;
use disk_io::Watched;
use echo_links::LinkFault;
use echo_nodelist::NodeFault;
use echo_packet::{Field, PacketFault};
use echo_text::TextFault;
use model_steps::{PostFault, ScanFault};

const LINES: &[(Fault<'static>, &str, u8)] = &[
    (
        Fault::Packet(PacketFault::Read { at: 58 }),
        "echonet: P6 Read at 58\n",
        3,
    ),
    (
        Fault::Packet(PacketFault::Memory),
        "echonet: P7 Memory\n",
        3,
    ),
    (
        Fault::Packet(PacketFault::Stopped),
        "echonet: P8 Stopped\n",
        2,
    ),
    (
        Fault::Packet(PacketFault::Write { bytes: 7 }),
        "echonet: P9 Write bytes 7\n",
        3,
    ),
    (
        Fault::Packet(PacketFault::TooManyMessages { at: 210 }),
        "echonet: P10 TooManyMessages at 210\n",
        2,
    ),
    (
        Fault::Packet(PacketFault::BadField(Field::Subject)),
        "echonet: P11 BadField\n",
        2,
    ),
    (Fault::Text(TextFault::NotEcho), "echonet: X1 NotEcho\n", 2),
    (Fault::Text(TextFault::BadTag), "echonet: X2 BadTag\n", 2),
    (Fault::Text(TextFault::Memory), "echonet: X3 Memory\n", 3),
    (
        Fault::Text(TextFault::BadMsgId),
        "echonet: X4 BadMsgId\n",
        2,
    ),
    (
        Fault::Nodelist(NodeFault::Memory),
        "echonet: N5 Memory\n",
        3,
    ),
    (Fault::Link(LinkFault::Memory), "echonet: L9 Memory\n", 3),
    (Fault::Base(BaseFault::Read), "echonet: F4 Read\n", 3),
    (
        Fault::Base(BaseFault::Write { bytes: 7 }),
        "echonet: F5 Write bytes 7\n",
        3,
    ),
    (Fault::Base(BaseFault::Memory), "echonet: F6 Memory\n", 3),
    (Fault::Base(BaseFault::TooMany), "echonet: F7 TooMany\n", 2),
    (Fault::Post(PostFault::Memory), "echonet: B7 Memory\n", 3),
    (Fault::TossMemory, "echonet: C2 Memory\n", 3),
    (Fault::Scan(ScanFault::Memory), "echonet: S2 Memory\n", 3),
    (Fault::TooLarge("-"), "echonet: file too large -\n", 2),
    (Fault::OutOfMemory, "echonet: out of memory\n", 3),
];

fn is_line_of(fault: &Fault<'_>, line: &str, status: u8) -> bool {
    let mut room = [0u8; 64];
    let mut errors = Watched::new(room.as_mut_slice());
    let ended = fault.report(&mut errors);
    let left = errors.into_inner().len();
    ended.code() == status && room.get(..64usize.saturating_sub(left)) == Some(line.as_bytes())
}

#[test]
fn fault_lines(rt: HostRuntime) {
    for (fault, line, status) in LINES {
        assert!(rt; is_line_of(fault, *line, *status), "{line}");
    }
}
