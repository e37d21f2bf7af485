//! Whether packets go to paths that belong to nothing else.
ghost use Rattle.std.specs.Prelude.{◌≡◌, ◌≢◌, true, false, All};
ghost use Rattle.{disk_atomic.specs.ListStaged.IsNameByte, station_scan.specs.{Fitting.IsOff, Sending.IsOffOwn}};

use crate::sending::TwoPaths;
use disk_atomic::Outgoing;
use station::OwnPaths;

/// Whether it may be a packet's name: no byte of it is a slash or a tilde.
pub(crate) fn is_name(name: &[u8]) -> bool
    ensures yes { result ≡ true → All IsNameByte name.now }
    ensures no { result ≡ false → All IsNameByte name.now → ⊥ }
{
    'bytes: for byte in name {
        if *byte == b'/' || *byte == b'~' {
            return false;
        }
    }
    true
}

/// Whether two paths differ.
pub(crate) fn differ(one: &[u8], other: &[u8]) -> bool
    ensures yes { result ≡ true → one.now ≢ other.now }
    ensures no { result ≡ false → one.now ≡ other.now }
{
    one != other
}

/// Whether neither path belongs to the station.
pub(crate) fn is_off_own<O: OwnPaths>(own: &O, two: &TwoPaths) -> bool
    ensures yes { result ≡ true → IsOffOwn (O.is_own own.now) two.now }
    ensures no { result ≡ false → IsOffOwn (O.is_own own.now) two.now → ⊥ }
{
    !own.owns(two.path.as_slice()) && !own.owns(two.staging.as_slice())
}

/// Whether no path of these packets belongs to the station, and the path that is tried does not either.
pub(crate) fn are_off_own<O: OwnPaths>(own: &O, trial: &[u8], packets: &[Outgoing<'_>]) -> bool
    ensures yes { result ≡ true → All (IsOff (O.is_own own.now) trial.now) packets.now }
    ensures no { result ≡ false → All (IsOff (O.is_own own.now) trial.now) packets.now → ⊥ }
{
    'packets: for packet in packets {
        if !is_off(own, trial, packet) {
            return false;
        }
    }
    true
}

// Whether that holds for one packet.
fn is_off<O: OwnPaths>(own: &O, trial: &[u8], packet: &Outgoing<'_>) -> bool
    ensures yes { result ≡ true → IsOff (O.is_own own.now) trial.now packet.now }
    ensures no { result ≡ false → IsOff (O.is_own own.now) trial.now packet.now → ⊥ }
{
    !own.owns(packet.path) && !own.owns(packet.staging) && !own.owns(trial)
}
