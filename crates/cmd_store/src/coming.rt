//! The packet files of a toss, opened one after another.

ghost use Rattle.std.specs.Prelude.{List, map};
ghost use Rattle.cmd_store.specs.Coming.{Coming, Holds, OpensNext};

use cmd_status::Fault;
use disk_io::Source;

/// Packet files in order; each is opened when asked for. Results describe a file only while the files are honest: no
/// program changed one, and no device failed. Files in memory always are.
pub trait PacketFiles<'a> {
    /// What reads a file that was opened.
    type Reader: Source + Drop;

    // The facts known of each file not yet opened.
    ghost coming: { Self → List Coming };

    // Every answer so far fitted the files, and no device failed.
    ghost is_honest: { Self → Type 0 };

    /// Opens the next file: `None` after the last, a fault if it can't be used. It counts as opened then too.
    fn open_next(&mut self) -> Option<Result<Self::Reader, Fault<'a>>>
        ensures next { OpensNext (is_honest self.new) Self.Reader.remaining (coming self.old) (coming self.new) result }
        ensures honest { is_honest self.new → is_honest self.old };
}

impl<'a, 'b> PacketFiles<'a> for &[&'b [u8]] {
    type Reader = &'b [u8];

    ghost coming = { λ packets. map (λ packet. Holds packet.now) packets.now };

    ghost is_honest = { λ _. Unit {0} };

    fn open_next(&mut self) -> Option<Result<&'b [u8], Fault<'a>>> {
        let packets: &[&'b [u8]] = *self;
        if packets.is_empty() {
            return None;
        }
        *self = &packets[1..];
        Some(Ok(packets[0]))
    }
}
