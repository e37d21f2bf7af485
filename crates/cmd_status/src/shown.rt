//! A path as it is printed: bytes on which a terminal would act are escaped.

use echo_charset::{are_shown, is_shown};
use std::fmt;

/// A printed path: unchanged where a terminal shows all of it, else with `\xNN` for each byte that could steer
/// the terminal.
#[derive(Clone, Copy)]
pub(crate) struct Shown<'a>(pub(crate) &'a str);

impl fmt::Display for Shown<'_> {
    fn fmt<W: fmt::Write>(&self, f: &mut fmt::Formatter<W>) -> fmt::Result {
        let path = self.0;
        if are_shown(path.as_bytes()) {
            return f.write_str(path);
        }
        'characters: for (i, character) in path.char_indices() {
            if i < path.len() && is_shown(path.as_bytes(), i) {
                write_doubled(f, character)?;
            } else {
                write_bytes(f, character)?;
            }
        }
        Ok(())
    }
}

fn write_doubled<W: fmt::Write>(f: &mut fmt::Formatter<W>, character: char) -> fmt::Result {
    if character == '\\' {
        f.write_char('\\')?;
    }
    f.write_char(character)
}

fn write_bytes<W: fmt::Write>(f: &mut fmt::Formatter<W>, character: char) -> fmt::Result {
    let mut bytes = [0; 4];
    'bytes: for byte in character.encode_utf8(&mut bytes).as_bytes() {
        write!(f, "\\x{byte:02x}")?;
    }
    Ok(())
}
