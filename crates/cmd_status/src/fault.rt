//! Why a command stopped, and the line that says so.

ghost use Rattle.std.specs.Prelude.{◌≡◌};
ghost use Rattle.cmd_status.specs.{declared.fault.Fault.TheVariants.{Base, Link, Nodelist, OutOfMemory, Packet, Post, Scan}, Status.status_of};

use crate::shown::Shown;
use crate::status::Status;
use base_file::BaseFault;
use disk_io::Sink;
use echo_addr::Address;
use echo_links::LinkFault;
use echo_nodelist::NodeFault;
use echo_packet::PacketFault;
use echo_text::TextFault;
use model_steps::{PostFault, ScanFault};
use std::alloc::{AllocError, AllocFailed};
use std::io::Write;
use thiserror::Error;

/// Why a command stopped. The text is that of the line on standard error, after `echonet: `.
#[derive(Clone, Copy, Debug, Drop, Error)]
pub enum Fault<'a> {
    #[error("{0}")]
    Packet(PacketFault),
    #[error("{0}")]
    Text(TextFault),
    #[error("{0}")]
    Nodelist(NodeFault),
    #[error("{0}")]
    Link(LinkFault),
    #[error("{0}")]
    Base(BaseFault),
    /// The base folder is that of another system.
    #[error("F8 NotOwner {0}")]
    NotOwner(Address),
    #[error("{0}")]
    Post(PostFault),
    /// A packet for this system came to another one.
    #[error("C1 NotForUs {0}")]
    NotForUs(Address),
    /// A growth was refused while a packet was tossed.
    #[error("C2 Memory")]
    TossMemory,
    #[error("{0}")]
    Scan(ScanFault),
    #[error("bad hex")]
    BadHex,
    #[error("bad address")]
    BadAddress,
    /// A stamp of another form.
    #[error("bad stamp")]
    BadStamp,
    /// A serial of another form.
    #[error("bad serial")]
    BadSerial,
    /// A number of another form.
    #[error("bad number")]
    BadNumber,
    /// A line of a script, counted from 1, of another form.
    #[error("script line {0}")]
    ScriptLine(u64),
    /// A line of a list of ids, counted from 1, of another form.
    #[error("list line {0}")]
    ListLine(u64),
    /// The address is no link of the area.
    #[error("not linked {0}")]
    NotLinked(Address),
    /// The link file has no such area.
    #[error("no area {tag}", tag = Shown(.0))]
    NoArea(&'a str),
    /// A file, or standard input as `-`, has more bytes than allowed.
    #[error("file too large {path}", path = Shown(.0))]
    TooLarge(&'a str),
    /// A file, or standard input or output as `-`, failed.
    #[error("cannot use {path}", path = Shown(.0))]
    CannotUse(&'a str),
    #[error("out of memory")]
    OutOfMemory,
}

impl From<PacketFault> for Fault<'_> {
    ghost from_gives = { λ fault e. e ≡ Packet fault };

    fn from(fault: PacketFault) -> Self {
        Fault::Packet(fault)
    }
}

impl From<NodeFault> for Fault<'_> {
    ghost from_gives = { λ fault e. e ≡ Nodelist fault };

    fn from(fault: NodeFault) -> Self {
        Fault::Nodelist(fault)
    }
}

impl From<LinkFault> for Fault<'_> {
    ghost from_gives = { λ fault e. e ≡ Link fault };

    fn from(fault: LinkFault) -> Self {
        Fault::Link(fault)
    }
}

impl From<BaseFault> for Fault<'_> {
    ghost from_gives = { λ fault e. e ≡ Base fault };

    fn from(fault: BaseFault) -> Self {
        Fault::Base(fault)
    }
}

impl From<PostFault> for Fault<'_> {
    ghost from_gives = { λ fault e. e ≡ Post fault };

    fn from(fault: PostFault) -> Self {
        Fault::Post(fault)
    }
}

impl From<ScanFault> for Fault<'_> {
    ghost from_gives = { λ fault e. e ≡ Scan fault };

    fn from(fault: ScanFault) -> Self {
        Fault::Scan(fault)
    }
}

impl From<AllocError> for Fault<'_> {
    ghost from_gives = { λ _ e. e ≡ OutOfMemory };

    fn from(_e: AllocError) -> Self {
        Fault::OutOfMemory
    }
}

impl<T: Drop> From<AllocFailed<T>> for Fault<'_> {
    ghost from_gives = { λ _ e. e ≡ OutOfMemory };

    fn from(_e: AllocFailed<T>) -> Self {
        Fault::OutOfMemory
    }
}

impl Fault<'_> {
    /// A fault of a device or of memory is `Device`, every other one `Refused`.
    pub fn status(&self) -> Status
        ensures { result ≡ status_of self.now }
    {
        match self {
            Fault::Packet(
                PacketFault::Read { .. } | PacketFault::Memory | PacketFault::Write { .. },
            )
            | Fault::Text(TextFault::Memory)
            | Fault::Nodelist(NodeFault::Memory | NodeFault::Write { .. })
            | Fault::Link(LinkFault::Memory)
            | Fault::Base(BaseFault::Read | BaseFault::Write { .. } | BaseFault::Memory)
            | Fault::Post(PostFault::Memory)
            | Fault::TossMemory
            | Fault::Scan(ScanFault::Memory)
            | Fault::CannotUse(_)
            | Fault::OutOfMemory => Status::Device,
            Fault::Packet(_)
            | Fault::Text(_)
            | Fault::Nodelist(_)
            | Fault::Link(_)
            | Fault::Base(_)
            | Fault::NotOwner(_)
            | Fault::Post(_)
            | Fault::NotForUs(_)
            | Fault::Scan(_)
            | Fault::BadHex
            | Fault::BadAddress
            | Fault::BadStamp
            | Fault::BadSerial
            | Fault::BadNumber
            | Fault::ScriptLine(_)
            | Fault::ListLine(_)
            | Fault::NotLinked(_)
            | Fault::NoArea(_)
            | Fault::TooLarge(_) => Status::Refused,
        }
    }

    /// Writes the fault's line and returns its status, which also holds if the line can't be written.
    pub fn report<E: Sink>(&self, errors: &mut E) -> Status
        ensures { result ≡ status_of self.now }
    {
        let _ = writeln!(errors, "echonet: {self}");
        self.status()
    }
}
