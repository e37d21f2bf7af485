//! The verdict on an area, and its faults V1 to V8.

use echo_addr::{Address, Items};
use std::fmt;

/// Whether an area of a net is in order.
#[derive(Drop)]
pub enum Verdict {
    /// It is, with this many systems and pairs of linked systems.
    Yes { systems: usize, links: u128 },
    /// It is not, for this reason.
    No(NetFault),
}

/// Why an area of a net is not in order.
#[derive(Drop)]
pub enum NetFault {
    /// No file has the area.
    NoSuchArea,
    /// Two files have the address.
    TwoFiles(Address),
    /// The system lists itself.
    SelfLink(Address),
    /// The first system lists the second, which does not carry the area.
    Unknown(Address, Address),
    /// The first system lists the second, which does not list it.
    OneSided(Address, Address),
    /// Both systems have the same net and node.
    SameNetNode(Address, Address),
    /// No walk along links joins the first system with the second.
    Apart(Address, Address),
    /// These systems form a cycle, and two of them are not linked.
    Loop(Items<Address>),
}

/// Writes the number and name of the fault, and its addresses.
impl fmt::Display for NetFault {
    ghost use Rattle.std.specs.Prelude.{Some};
    ghost use Rattle.echo_verdict.specs.Printed.{fault_text};

    ghost output = { λ fault. Some (fault_text fault) };

    fn fmt<W: fmt::Write>(&self, f: &mut fmt::Formatter<W>) -> fmt::Result {
        match self {
            NetFault::NoSuchArea => f.write_str("V1 NoSuchArea"),
            NetFault::TwoFiles(a) => write!(f, "V2 TwoFiles {a}"),
            NetFault::SelfLink(a) => write!(f, "V3 SelfLink {a}"),
            NetFault::Unknown(a, b) => write!(f, "V4 Unknown {a} {b}"),
            NetFault::OneSided(a, b) => write!(f, "V5 OneSided {a} {b}"),
            NetFault::SameNetNode(a, b) => write!(f, "V6 SameNetNode {a} {b}"),
            NetFault::Apart(a, b) => write!(f, "V7 Apart {a} {b}"),
            NetFault::Loop(round) => {
                f.write_str("V8 Loop")?;
                'round: for system in round.as_slice() {
                    write!(f, " {system}")?;
                }
                Ok(())
            }
        }
    }
}
