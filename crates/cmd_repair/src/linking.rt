//! Whether an address is a link of an area, for the commands that send again.

ghost use Rattle.std.specs.Prelude.{◌≡◌, true, false, MatchResult};
ghost use Rattle.{echo_links.specs.Links.is_link, cmd_status.specs.declared.fault.Fault.TheVariants.NotLinked};

use cmd_status::Fault;
use echo_addr::Address;
use echo_links::LinkFile;

/// A fault, unless the address is a link of the area, whose tag is in upper case.
pub fn check_linked<'a>(links: &LinkFile, area: &[u8], to: Address) -> Result<(), Fault<'a>>
    ensures { MatchResult result
        (λ _. is_link links.now area.now to ≡ true)
        (λ fault. (fault ≡ NotLinked to) × (is_link links.now area.now to ≡ false)) }
{
    if links.is_link(area, to) {
        Ok(())
    } else {
        Err(Fault::NotLinked(to))
    }
}
