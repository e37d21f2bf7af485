//! The command `scan` on a station, for every kind of base. It names or removes the packets that earlier scans left.
//! Then it writes its packets and its base together, so that a crash leaves both or neither.
//!
//! The contract for the program: the scan holds the locks of the station. It uses the link file as the disk shows it,
//! and the base that the station's files hold. If it ends well, nothing of earlier scans is left. Each packet of the
//! scan is at its path, with just its bytes, and each later crash leaves the base with the cursor at its end. A crash
//! during the scan leaves the base from before and no packet of this scan at its path, or the new base and each packet
//! whole.
//!
//! Begin with `scanning` (the command) and `putting` (the cursor, then earlier packets, then these). `sending` plans two
//! paths for each link before the pass. `outgoing` makes the packets and sends them out. For that `passing` goes over the
//! messages once. `counting` keeps one list of the packets for the links. `fitting` judges the paths of packets that begin,
//! and `growing` writes each group into staging files. `stopping` removes these files where the pass stops. `ending` and
//! `publishing` end the packets and commit, and `naming` gives them their paths. They use `pieces` (the next bytes of a
//! packet), `writing` and `staging` (staging files on the disk). `finding` and `finishing` end what earlier scans left. `jobs` are the steps for which a
//! store lends its disk. `reporting` prints the lines of a scan that stops, and `reported` reports progress.
//! `publish_error` and `scan_error` are the errors.
#![tactic(auto)]

mod counting;
mod ending;
mod finding;
mod finishing;
mod fitting;
mod growing;
mod jobs;
mod naming;
mod outgoing;
mod passing;
mod pieces;
mod publish_error;
mod publishing;
mod putting;
mod reported;
mod reporting;
mod scan_error;
mod scanning;
mod sending;
mod staging;
mod stopping;
mod writing;

pub use pieces::ScanSource;
pub use publish_error::PublishError;
pub use reported::ReportedStore;
pub use scan_error::ScanError;
pub use scanning::{Scan, Scanned, run_scan};
pub use writing::Batch;
