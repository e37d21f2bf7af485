//! Bytes as they are printed.
ghost use Rattle.std.specs.Prelude.{◌≡◌, ◌++◌, OnOk};
ghost use Rattle.echo_charset.specs.Escaped.{escaped, escaped_byte, escaped_line, hexed};

use std::alloc::AllocError;

const DIGITS: [u8; 16] = *b"0123456789abcdef";

pub(crate) fn push_hexed(line: &mut Vec<u8>, byte: u8) -> Result<(), AllocError>
    ensures { OnOk result (line.new.items ≡ line.old.items ++ hexed byte) }
{
    let high = DIGITS[usize::from(byte / 16)];
    let low = DIGITS[usize::from(byte % 16)];
    line.extend_from_slice(&[b'\\', b'x', high, low])
}

fn push_byte(line: &mut Vec<u8>, byte: u8) -> Result<(), AllocError>
    ensures { OnOk result (line.new.items ≡ line.old.items ++ escaped_byte byte) }
{
    match byte {
        b'\\' => line.extend_from_slice(b"\\\\")?,
        b' '..=b'~' => line.push(byte)?,
        _ => push_hexed(line, byte)?,
    }
    Ok(())
}

fn push_bytes(line: &mut Vec<u8>, bytes: &[u8]) -> Result<(), AllocError>
    ensures { OnOk result (line.new.items ≡ line.old.items ++ escaped bytes.now) }
{
    'bytes: for byte in bytes {
        push_byte(line, *byte)?;
    }
    Ok(())
}

/// Adds a line: a word, a blank and the bytes. Bytes 20 to 7E are unchanged, except that a
/// backslash is doubled. Every other byte is `\x` and two digits.
pub fn push_escaped(lines: &mut Vec<u8>, word: &[u8], bytes: &[u8]) -> Result<(), AllocError>
    ensures { OnOk result (lines.new.items ≡ lines.old.items ++ escaped_line word.now bytes.now) }
{
    lines.extend_from_slice(word)?;
    lines.push(b' ')?;
    push_bytes(lines, bytes)?;
    lines.push(b'\n')?;
    Ok(())
}
