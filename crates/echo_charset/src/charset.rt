//! The character sets that messages name, each with its text in UTF-8.

ghost use Rattle.std.specs.{Prelude.{◌≡◌, ◌<◌, bytes_eq, map, string_bytes, IfOk}, Char.to_ascii_lowercase};

use crate::tables::{CP437, CP850, CP866, CP1251, KOI8_R};
use std::alloc::{AllocError, Global};

/// A charset of message texts. Below 80 each has the characters of ASCII.
#[derive(Clone, Copy, Debug, PartialEq, Eq)]
pub enum Charset {
    Ascii,
    Cp437,
    Cp850,
    Cp866,
    Cp1251,
    Koi8R,
    Latin1,
    Utf8,
}

impl Charset {
    ghost use Rattle.echo_charset.specs.Charset as charset;
    ghost use Rattle.echo_charset.specs.Charset.{character, characters, is_utf8, named, decoded_text, upper_half};

    /// The charset of this name, in letters of either case: `IBMPC` is CP437, and `+7_FIDO` is CP866.
    #[tactic(auto, unfolding(crate::specs::Charset::named))]
    pub fn named(name: &[u8]) -> Option<Charset>
        ensures { result ≡ named name.now }
    {
        if is_called(name, b"ascii") {
            Some(Charset::Ascii)
        } else if is_called(name, b"cp437") || is_called(name, b"ibmpc") {
            Some(Charset::Cp437)
        } else if is_called(name, b"cp850") {
            Some(Charset::Cp850)
        } else if is_called(name, b"cp866") || is_called(name, b"+7_fido") {
            Some(Charset::Cp866)
        } else if is_called(name, b"cp1251") {
            Some(Charset::Cp1251)
        } else if is_called(name, b"koi8-r") {
            Some(Charset::Koi8R)
        } else if is_called(name, b"latin-1") {
            Some(Charset::Latin1)
        } else if is_called(name, b"utf-8") {
            Some(Charset::Utf8)
        } else {
            None
        }
    }

    /// The name, as messages have it.
    pub fn name(self) -> &'static [u8]
        ensures { result.now ≡ charset.charset_name self }
    {
        match self {
            Charset::Ascii => b"ASCII",
            Charset::Cp437 => b"CP437",
            Charset::Cp850 => b"CP850",
            Charset::Cp866 => b"CP866",
            Charset::Cp1251 => b"CP1251",
            Charset::Koi8R => b"KOI8-R",
            Charset::Latin1 => b"LATIN-1",
            Charset::Utf8 => b"UTF-8",
        }
    }

    /// The bytes as text. A byte that the charset lacks becomes U+FFFD. In UTF-8 so does each byte that begins
    /// no character, and each longest run of bytes that begins one but does not complete it.
    #[tactic(auto, unfolding(crate::specs::Charset::decoded_text))]
    pub fn text(self, alloc: Global, bytes: &[u8]) -> Result<String, AllocError>
        ensures { IfOk result (λ text. string_bytes text ≡ decoded_text self bytes.now) }
    {
        if self.is_utf8() {
            String::from_utf8_lossy(alloc, bytes)
        } else {
            self.characters(alloc, bytes)
        }
    }

    pub(crate) fn is_utf8(self) -> bool
        ensures { result ≡ is_utf8 self }
    {
        match self {
            Charset::Utf8 => true,
            _ => false,
        }
    }

    fn characters(self, alloc: Global, bytes: &[u8]) -> Result<String, AllocError>
        ensures { IfOk result (λ text. string_bytes text ≡ characters self bytes.now) }
    {
        let mut text = String::new(alloc);
        'bytes: for byte in bytes {
            text.push(self.character(*byte))?;
        }
        Ok(text)
    }

    fn character(self, byte: u8) -> char
        ensures { result ≡ character self byte }
    {
        if byte < 128 {
            char::from(byte)
        } else {
            self.upper_half(byte - 128)
        }
    }

    #[tactic(auto, unfolding(crate::specs::Charset::upper_half))]
    pub(crate) fn upper_half(self, above: u8) -> char
        requires { above < 128 }
        ensures { result ≡ upper_half self above }
    {
        let i = usize::from(above);
        match self {
            Charset::Cp437 => CP437[i],
            Charset::Cp850 => CP850[i],
            Charset::Cp866 => CP866[i],
            Charset::Cp1251 => CP1251[i],
            Charset::Koi8R => KOI8_R[i],
            Charset::Latin1 => char::from(above + 128),
            Charset::Ascii | Charset::Utf8 => '\u{fffd}',
        }
    }
}

fn is_called(name: &[u8], word: &[u8]) -> bool
    ensures { result ≡ bytes_eq (map to_ascii_lowercase name.now) (map to_ascii_lowercase word.now) }
{
    name.eq_ignore_ascii_case(word)
}
