//! Which messages a purge looks at.
ghost use Rattle.std.specs.Prelude.{◌≡◌};
ghost use Rattle.base_file.specs.Purging.{is_changed, is_within, purge_end, whole};

use echo_addr::Items;
use echo_filed::{Filed, is_stub};

/// The range of a purge: scanned messages of an area, or of all areas, with a number below a bound, or with any.
#[derive(Debug, Drop)]
pub struct PurgeRange {
    /// The tag of the area, in capitals.
    pub area: Option<Items<u8>>,
    /// The bound. Numbers count from 0 in order of filing.
    pub below: Option<u64>,
}

impl PurgeRange {
    /// All scanned messages.
    pub fn whole() -> PurgeRange
        ensures { result ≡ whole }
    {
        PurgeRange {
            area: None,
            below: None,
        }
    }

    /// The number of the first message behind it in a base with this cursor.
    pub fn end(&self, cursor: u64) -> u64
        ensures { result ≡ purge_end self.now cursor }
    {
        match self.below {
            Some(below) if below < cursor => below,
            _ => cursor,
        }
    }

    /// Whether the message is in its area.
    pub fn has(&self, message: &Filed) -> bool
        ensures { result ≡ is_within self.now.area message.now }
    {
        match &self.area {
            Some(area) => message.echo.tag.as_slice() == area.as_slice(),
            None => true,
        }
    }

    /// Whether it changes the message, if that stands before its end.
    pub fn changes(&self, message: &Filed) -> bool
        ensures { result ≡ is_changed self.now.area message.now }
    {
        self.has(message) && !is_stub(message)
    }
}
