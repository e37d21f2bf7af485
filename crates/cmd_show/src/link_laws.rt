//! Laws about the definitions. Each law is the contract of a function that does nothing.
ghost use Rattle.std.specs.Prelude.{◌≡◌, ℕ, List, option_map, slice_get};
ghost use Rattle.{echo_links.specs.LinkLines.file_fault, cmd_show.specs.FaultyLines.faults_of};

/// The first reported fault of a link file is the one that its reader names. Without fault nothing is reported.
pub fn first_fault_is_reported_first()
    ensures { (bytes : List ℕ) → option_map (λ line. line.fault) (slice_get (faults_of bytes) 0) ≡ file_fault bytes }
{}
