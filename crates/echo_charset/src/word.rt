//! Characters of UTF-8, found in bytes.

ghost use Rattle.std.specs.Prelude.{◌≡◌, ◌++◌, ◌<◌, length, slice_index, OnOk};
ghost use Rattle.echo_charset.specs.Words.{are_shown, begins_four, begins_three, doubled, follows, is_covered, is_direction, is_four, is_one, is_shown, is_three, is_two, printed_word, spelled, spelled_at, visible_at, visible_of};

use crate::bytes::push_hexed;
use std::alloc::AllocError;

fn follows(byte: u8) -> bool
    ensures { result ≡ follows byte }
{
    128 <= byte && byte <= 191
}

fn is_one(a: u8) -> bool
    ensures { result ≡ is_one a }
{
    32 <= a && a <= 126
}

fn is_two(a: u8, b: u8) -> bool
    ensures { result ≡ is_two a b }
{
    194 <= a && a <= 223 && follows(b) && !(a == 194 && b <= 159)
}

fn is_direction(a: u8, b: u8, c: u8) -> bool
    ensures { result ≡ is_direction a b c }
{
    a == 226
        && ((b == 128 && ((142 <= c && c <= 143) || (170 <= c && c <= 174)))
            || (b == 129 && 166 <= c && c <= 169))
}

fn begins_three(a: u8, b: u8) -> bool
    ensures { result ≡ begins_three a b }
{
    (a == 224 && 160 <= b && b <= 191)
        || (a == 237 && 128 <= b && b <= 159)
        || (((225 <= a && a <= 236) || (238 <= a && a <= 239)) && follows(b))
}

fn is_three(a: u8, b: u8, c: u8) -> bool
    ensures { result ≡ is_three a b c }
{
    begins_three(a, b) && follows(c) && !is_direction(a, b, c)
}

fn begins_four(a: u8, b: u8) -> bool
    ensures { result ≡ begins_four a b }
{
    (a == 240 && 144 <= b && b <= 191)
        || (a == 244 && 128 <= b && b <= 143)
        || (241 <= a && a <= 243 && follows(b))
}

fn is_four(a: u8, b: u8, c: u8, d: u8) -> bool
    ensures { result ≡ is_four a b c d }
{
    begins_four(a, b) && follows(c) && follows(d)
}

fn visible_of(a: u8, b: u8, c: u8, d: u8) -> usize
    ensures { result ≡ visible_of a b c d }
{
    if is_one(a) {
        1
    } else if is_two(a, b) {
        2
    } else if is_three(a, b, c) {
        3
    } else if is_four(a, b, c, d) {
        4
    } else {
        0
    }
}

fn byte_at(word: &[u8], i: usize) -> u8
    ensures { result ≡ slice_index word.now i }
{
    match word.get(i) {
        Some(byte) => *byte,
        None => 0,
    }
}

fn visible_at(word: &[u8], i: usize) -> usize
    requires { i < length word.now }
    ensures { result ≡ visible_at word.now i }
{
    visible_of(
        byte_at(word, i),
        byte_at(word, i + 1),
        byte_at(word, i + 2),
        byte_at(word, i + 3),
    )
}

fn is_covered(word: &[u8], i: usize, before: usize) -> bool
    requires { i < length word.now }
    ensures { result ≡ is_covered word.now i before }
{
    before <= i && before < visible_at(word, i - before)
}

/// Whether the byte at an index belongs to a visible character.
pub fn is_shown(word: &[u8], i: usize) -> bool
    requires { i < length word.now }
    ensures { result ≡ is_shown word.now i }
{
    is_covered(word, i, 0)
        || is_covered(word, i, 1)
        || is_covered(word, i, 2)
        || is_covered(word, i, 3)
}

/// Whether all bytes of a word belong to characters that are printed as they are.
pub fn are_shown(word: &[u8]) -> bool
    ensures { result ≡ are_shown word.now (length word.now) }
{
    let mut all = true;
    for i in 0..word.len() {
        all = all && is_shown(word, i);
    }
    all
}

fn push_doubled(text: &mut Vec<u8>, byte: u8) -> Result<(), AllocError>
    ensures { OnOk result (text.new.items ≡ text.old.items ++ doubled byte) }
{
    match byte {
        b'\\' => text.extend_from_slice(b"\\\\")?,
        _ => text.push(byte)?,
    }
    Ok(())
}

fn push_spelled_at(text: &mut Vec<u8>, word: &[u8], i: usize) -> Result<(), AllocError>
    requires { i < length word.now }
    ensures { OnOk result (text.new.items ≡ text.old.items ++ spelled_at word.now i) }
{
    if is_shown(word, i) {
        push_doubled(text, word[i])
    } else {
        push_hexed(text, word[i])
    }
}

fn push_spelled(text: &mut Vec<u8>, word: &[u8]) -> Result<(), AllocError>
    ensures { OnOk result (text.new.items ≡ text.old.items ++ spelled word.now (length word.now)) }
{
    for i in 0..word.len() {
        push_spelled_at(text, word, i)?;
    }
    Ok(())
}

/// Adds a word of the command line, unchanged if a terminal shows all of it. Otherwise hidden bytes
/// become `\x` and two digits, and a backslash is doubled. Hidden are controls (below 20, 7F, the
/// characters 80 to 9F), marks that turn the direction of a text, and bytes that are no UTF-8.
pub fn push_word(text: &mut Vec<u8>, word: &[u8]) -> Result<(), AllocError>
    ensures { OnOk result (text.new.items ≡ text.old.items ++ printed_word word.now) }
{
    if are_shown(word) {
        text.extend_from_slice(word)
    } else {
        push_spelled(text, word)
    }
}
