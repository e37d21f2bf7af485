//! The words of each command, by the names of its options and files.

/// The command and its words. A path can be `-`.
#[derive(Drop)]
pub enum Words<'a> {
    Net(NetWords<'a>),
    Base(BaseWords<'a>),
    ExportJam(ExportJamWords<'a>),
    Station(StationWords<'a>),
}

/// The words of a command that reads no base.
#[derive(Drop)]
pub enum NetWords<'a> {
    Show {
        hex: bool,
        text: bool,
        packet: &'a str,
    },
    Nodelist {
        find: Option<&'a str>,
        file: &'a str,
    },
    Links {
        areas: bool,
        links: Paths<'a>,
    },
    Check(CheckWords<'a>),
    Picture(PictureWords<'a>),
    Why(WhyWords<'a>),
    Replay {
        script: &'a str,
        links: Paths<'a>,
    },
}

/// The words of a command that reads a base, and changes none.
#[derive(Drop)]
pub enum BaseWords<'a> {
    List(ListWords<'a>),
    Export(ExportWords<'a>),
    ExportStored(ExportStoredWords<'a>),
    Convert { from: &'a str, to: &'a str },
    Resend(ResendWords<'a>),
}

/// The words of a command that changes the base of a station.
#[derive(Drop)]
pub enum StationWords<'a> {
    Post(PostWords<'a>),
    PostMail(PostMailWords<'a>),
    PostStored(PostStoredWords<'a>),
    PostJam(PostJamWords<'a>),
    Reply(ReplyWords<'a>),
    Toss(TossWords<'a>),
    Scan(ScanWords<'a>),
    Purge(PurgeWords<'a>),
}

/// The paths of the link file and of the base of a station.
#[derive(Clone, Copy)]
pub struct Place<'a> {
    pub links: &'a str,
    pub base: &'a str,
}

/// The paths of files: words, or the file that lists them.
#[derive(Drop)]
pub struct Paths<'a> {
    pub words: Vec<&'a str>,
    pub from: Option<&'a str>,
}

/// The words of `check`. Without a tag it judges all areas. The systems `assume` have no link file, and with
/// `assume_missing` those that a file lists too. The systems `without` are left out.
#[derive(Drop)]
pub struct CheckWords<'a> {
    pub nodelist: Option<&'a str>,
    pub more: bool,
    pub assume: Vec<&'a str>,
    pub assume_missing: bool,
    pub without: Vec<&'a str>,
    pub tag: Option<&'a str>,
    pub links: Paths<'a>,
}

/// The words of `picture`.
#[derive(Drop)]
pub struct PictureWords<'a> {
    pub why: bool,
    pub assume: Vec<&'a str>,
    pub assume_missing: bool,
    pub without: Vec<&'a str>,
    pub tag: &'a str,
    pub links: Paths<'a>,
}

/// The words of `why`.
#[derive(Drop)]
pub struct WhyWords<'a> {
    pub fault: Option<&'a str>,
    pub assume: Vec<&'a str>,
    pub assume_missing: bool,
    pub tag: &'a str,
    pub links: Paths<'a>,
}

/// The words of `post`.
#[derive(Drop)]
pub struct PostWords<'a> {
    pub area: &'a str,
    pub to: &'a str,
    pub from: &'a str,
    pub subject: &'a str,
    pub serial: &'a str,
    pub at: &'a str,
    pub reply: Option<&'a str>,
    pub place: Place<'a>,
}

/// The words of `post --mail`.
#[derive(Drop)]
pub struct PostMailWords<'a> {
    pub charset: Option<&'a str>,
    pub area: Option<&'a str>,
    pub to: Option<&'a str>,
    pub from: Option<&'a str>,
    pub subject: Option<&'a str>,
    pub serial: &'a str,
    pub at: &'a str,
    pub reply: Option<&'a str>,
    pub place: Place<'a>,
}

/// The words of `post --msg`.
#[derive(Drop)]
pub struct PostStoredWords<'a> {
    pub area: &'a str,
    pub serial: &'a str,
    pub at: &'a str,
    pub message: &'a str,
    pub place: Place<'a>,
}

/// The words of `post --jam`.
#[derive(Drop)]
pub struct PostJamWords<'a> {
    pub area: &'a str,
    pub serial: &'a str,
    pub at: &'a str,
    pub jam: &'a str,
    pub place: Place<'a>,
}

/// The words of `reply`.
#[derive(Drop)]
pub struct ReplyWords<'a> {
    pub from: &'a str,
    pub serial: &'a str,
    pub at: &'a str,
    pub index: &'a str,
    pub place: Place<'a>,
}

/// The words of `list`.
#[derive(Drop)]
pub struct ListWords<'a> {
    pub short: bool,
    pub areas: bool,
    pub ids: bool,
    pub area: Option<&'a str>,
    pub from: Option<&'a str>,
    pub base: &'a str,
}

/// The words of `export`.
#[derive(Drop)]
pub struct ExportWords<'a> {
    pub json: bool,
    pub purged: bool,
    pub area: Option<&'a str>,
    pub from: Option<&'a str>,
    pub base: &'a str,
}

/// The words of `export --msg`.
#[derive(Drop)]
pub struct ExportStoredWords<'a> {
    pub folder: &'a str,
    pub area: &'a str,
    pub from: Option<&'a str>,
    pub base: &'a str,
}

/// The words of `export --jam`.
#[derive(Drop)]
pub struct ExportJamWords<'a> {
    pub jam: &'a str,
    pub area: &'a str,
    pub from: Option<&'a str>,
    pub base: &'a str,
}

/// The words of `toss`. With `each`, each message that is not filed is printed. `text_limit` is the most bytes of a text.
#[derive(Drop)]
pub struct TossWords<'a> {
    pub each: bool,
    pub text_limit: Option<&'a str>,
    pub place: Place<'a>,
    pub packets: Paths<'a>,
}

/// The words of `purge`. Without an area or a number it purges all.
#[derive(Clone, Copy)]
pub struct PurgeWords<'a> {
    pub area: Option<&'a str>,
    pub to: Option<&'a str>,
    pub place: Place<'a>,
}

/// The words of `scan`.
#[derive(Clone, Copy)]
pub struct ScanWords<'a> {
    pub at: &'a str,
    pub place: Place<'a>,
    pub folder: &'a str,
}

/// The words of `resend`. With `all` it sends all messages, and those that the list `has` does not name.
#[derive(Drop)]
pub struct ResendWords<'a> {
    pub all: bool,
    pub has: Option<&'a str>,
    pub area: &'a str,
    pub to: &'a str,
    pub from: Option<&'a str>,
    pub at: &'a str,
    pub place: Place<'a>,
    pub folder: &'a str,
}

/// A parsed command line. With `explain`, notes explain its faults.
#[derive(Drop)]
pub struct ParsedLine<'a> {
    pub words: Words<'a>,
    pub explain: bool,
}
