//! A text of UTF-8 in a charset of one byte a character.

ghost use Rattle.std.specs.Prelude.{◌≡◌, ◌+◌, ◌<◌, ◌≤◌, IfOk, MatchOption};
ghost use Rattle.echo_charset.specs.{Charset.character as byte_char, Charset.characters, Charset.decoded_text, Encoding.IsLacked, Encoding.Lacks, Encoding.LacksOne};

use crate::charset::Charset;
use std::alloc::{AllocError, Global};

impl Charset {
    /// The text in the bytes of this charset, or `None` where the charset lacks a character of it.
    #[tactic(auto, unfolding(crate::specs::Charset::decoded_text))]
    pub fn encode_text(self, alloc: Global, text: &str) -> Result<Option<Vec<u8>>, AllocError>
        ensures { IfOk result (λ found. MatchOption found (Lacks self text.now) (λ bytes. decoded_text self bytes.items ≡ text.now)) }
    {
        if self.is_utf8() {
            Ok(Some(Vec::from_slice(alloc, text.as_bytes())?))
        } else {
            self.single_bytes(alloc, text)
        }
    }

    fn single_bytes(self, alloc: Global, text: &str) -> Result<Option<Vec<u8>>, AllocError>
        ensures { IfOk result (λ found. MatchOption found (LacksOne self text.now) (λ bytes. characters self bytes.items ≡ text.now)) }
    {
        let mut bytes = Vec::new(alloc);
        'text: for character in text.chars() {
            match self.byte_of(character) {
                Some(byte) => bytes.push(byte)?,
                None => return Ok(None),
            }
        }
        Ok(Some(bytes))
    }

    fn byte_of(self, character: char) -> Option<u8>
        ensures { MatchOption result (IsLacked self character) (λ byte. byte_char self byte ≡ character) }
    {
        if character.is_ascii() {
            Some(character as u8)
        } else {
            self.upper_byte(character)
        }
    }

    fn upper_byte(self, character: char) -> Option<u8>
        requires { 128 ≤ character }
        ensures { MatchOption result (IsLacked self character) (λ byte. byte_char self byte ≡ character) }
    {
        if character == '\u{fffd}' {
            return None;
        }
        'upper: for above in 0..128u8 {
            if self.upper_half(above) == character {
                return Some(above + 128);
            }
        }
        None
    }
}
