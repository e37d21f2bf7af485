//! Laws about the definitions. Each law is the contract of a function that does nothing.

ghost use Rattle.std.specs.Prelude.{◌≡◌, ℕ, List, Result, Ok, Err};
ghost use Rattle.echo_links.specs.{declared.fault.LinkFault.LinkFault, Links.IsFile, Links.LinkFile, LinkLines.LinksOf};
ghost use Rattle.echo_links.specs.declared.fault.LinkFault.TheVariants as link;

/// Bytes are a link file or have one fault; out of memory is no fault of theirs.
pub fn one_link_file_or_fault()
    ensures answered { (bytes : List ℕ) →
        (answer : Result LinkFile LinkFault) × LinksOf bytes answer × ((other : Result LinkFile LinkFault) → LinksOf bytes other → other ≡ answer) }
    ensures no_memory { (bytes : List ℕ) → LinksOf bytes (Err link.Memory) → ⊥ }
{}

/// A link file that was read has a system in range and a name of one line. Each area comes once,
/// and has links in range, each once.
pub fn link_file_law()
    ensures { (bytes : List ℕ) (file : LinkFile) → LinksOf bytes (Ok file) → IsFile file }
{}
