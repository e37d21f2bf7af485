//! The address of each line, by the lines before it.

ghost use Rattle.std.specs.Prelude.{◌≡◌, ℕ, List, ◌∷◌, Some};
ghost use Rattle.echo_nodelist.specs.{declared.line.Line.Line, declared.line.Line.TheVariants.Entry, Back.address_back, Place.IsPlaceAfter, Place.Locates};

use crate::fault::NodeFault;
use crate::keyword::Keyword;
use crate::line::Line;
use echo_addr::Address;

/// The zone and net of a line, by the lines up to it.
#[derive(Clone, Copy)]
pub(crate) struct ZoneNet {
    zone: u16,
    net: u16,
}

#[derive(Clone, Copy)]
pub(crate) struct Located {
    pub(crate) address: Option<Address>,
    pub(crate) place: Option<ZoneNet>,
}

pub(crate) fn locate(
    place: Option<ZoneNet>,
    number: usize,
    line: &Line,
) -> Result<Located, NodeFault>
    ensures { (earlier : List Line) → IsPlaceAfter earlier place → Locates number earlier line.now result }
{
    let Line::Entry {
        keyword,
        number: system,
        fields: _,
    } = line
    else {
        return Ok(Located {
            address: None,
            place,
        });
    };
    let Some(here) = after(place, *keyword, *system) else {
        return Err(NodeFault::NoZone { line: number });
    };
    Ok(Located {
        address: Some(address(here, *keyword, *system)),
        place: Some(here),
    })
}

fn after(place: Option<ZoneNet>, keyword: Keyword, number: u16) -> Option<ZoneNet>
    ensures { (earlier : List Line) (fields : List (List ℕ)) → IsPlaceAfter earlier place → IsPlaceAfter (Entry keyword number fields ∷ earlier) result }
{
    if keyword.is_zone() {
        return Some(ZoneNet {
            zone: number,
            net: number,
        });
    }
    let mut here = place?;
    if keyword.begins_net() {
        here.net = number;
    }
    Some(here)
}

fn address(here: ZoneNet, keyword: Keyword, number: u16) -> Address
    ensures { (earlier : List Line) (fields : List (List ℕ)) → IsPlaceAfter (Entry keyword number fields ∷ earlier) (Some here)
        → address_back (Entry keyword number fields ∷ earlier) ≡ Some result }
{
    Address {
        zone: here.zone,
        net: here.net,
        node: if keyword.begins_net() { 0 } else { number },
    }
}
