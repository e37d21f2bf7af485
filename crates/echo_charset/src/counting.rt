//! Characters that a text lost.

ghost use Rattle.std.specs.Prelude.{◌≡◌, ◌≤◌, length, slice_index};
ghost use Rattle.echo_charset.specs.Losses.{begins_lost, lost};

/// The number of U+FFFD in a text of UTF-8.
pub fn lost(text: &[u8]) -> usize
    ensures count { result ≡ lost text.now }
    ensures few { result ≤ length text.now }
{
    let mut count = 0;
    let mut rest = text;
    'bytes: while !rest.is_empty() {
        if begins_lost(rest) {
            count += 1;
        }
        rest = &rest[1..];
    }
    count
}

fn begins_lost(bytes: &[u8]) -> bool
    ensures { result ≡ begins_lost bytes.now }
{
    byte_at(bytes, 0) == 239 && byte_at(bytes, 1) == 191 && byte_at(bytes, 2) == 189
}

fn byte_at(bytes: &[u8], i: usize) -> u8
    ensures { result ≡ slice_index bytes.now i }
{
    match bytes.get(i) {
        Some(byte) => *byte,
        None => 0,
    }
}
