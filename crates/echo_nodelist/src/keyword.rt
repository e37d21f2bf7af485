//! The keywords of a nodelist's lines (FTS-5000).

ghost use Rattle.std.specs.Prelude.{◌≡◌};
ghost use Rattle.echo_nodelist.specs.Line.{begins_net, is_hub, is_zone, keyword_of, keyword_text};

/// The kind of an entry (FTS-5000). `Node` has the empty keyword.
#[derive(Clone, Copy, Debug, PartialEq, Eq, Hash)]
pub enum Keyword {
    Zone,
    Region,
    Host,
    Hub,
    Pvt,
    Hold,
    Down,
    Node,
}

const KEYWORDS: [Keyword; 8] = [
    Keyword::Zone,
    Keyword::Region,
    Keyword::Host,
    Keyword::Hub,
    Keyword::Pvt,
    Keyword::Hold,
    Keyword::Down,
    Keyword::Node,
];

impl Keyword {
    /// The keyword as it is written.
    pub fn text(self) -> &'static [u8]
        ensures { result.now ≡ keyword_text self }
    {
        match self {
            Keyword::Zone => b"Zone",
            Keyword::Region => b"Region",
            Keyword::Host => b"Host",
            Keyword::Hub => b"Hub",
            Keyword::Pvt => b"Pvt",
            Keyword::Hold => b"Hold",
            Keyword::Down => b"Down",
            Keyword::Node => b"",
        }
    }

    pub(crate) fn of(bytes: &[u8]) -> Option<Keyword>
        ensures { result ≡ keyword_of bytes.now }
    {
        KEYWORDS
            .iter()
            .copied()
            .find(|keyword| bytes.eq_ignore_ascii_case(keyword.text()))
    }

    pub(crate) fn is_zone(self) -> bool
        ensures { result ≡ is_zone self }
    {
        matches!(self, Keyword::Zone)
    }

    pub(crate) fn begins_net(self) -> bool
        ensures { result ≡ begins_net self }
    {
        matches!(self, Keyword::Zone | Keyword::Region | Keyword::Host)
    }

    pub(crate) fn is_hub(self) -> bool
        ensures { result ≡ is_hub self }
    {
        matches!(self, Keyword::Hub)
    }
}
