//! The lines of a nodelist, cut at their ends.

ghost use Rattle.std.specs.{Prelude.◌≡◌, Prelude.◌+◌, Prelude.◌<◌, Prelude.◌≤◌, Prelude.◌==◌, Prelude.◌∷◌, Prelude.length, Prelude.IfSome, Prelude.IsNone, List.after_first, List.before_first, List.position_or_len, Io.BufRead.strip_last};
ghost use Rattle.echo_nodelist.specs.Raw.{lines_of, before_end};

use memchr::memchr;

const END: u8 = 0x1a;

pub(crate) fn cut(byte: u8, text: &[u8]) -> Option<(&[u8], &[u8])>
    ensures none { IsNone result → position_or_len (λ b. b == byte) text.now ≡ length text.now }
    ensures found { IfSome result (λ p. position_or_len (λ b. b == byte) text.now < length text.now) }
    ensures before { IfSome result (λ p. p.0.now ≡ before_first (λ b. b == byte) text.now) }
    ensures after { IfSome result (λ p. p.1.now ≡ after_first (λ b. b == byte) text.now) }
    ensures room { IfSome result (λ p. length p.0.now + length p.1.now < length text.now) }
{
    let place = memchr(byte, text)?;
    Some((&text[..place], &text[place + 1..]))
}

pub(crate) fn before_end(bytes: &[u8]) -> &[u8]
    ensures { result.now ≡ before_end bytes.now }
{
    match cut(END, bytes) {
        Some((text, _)) => text,
        None => bytes,
    }
}

pub(crate) fn without_return(line: &[u8]) -> &[u8]
    ensures value { result.now ≡ strip_last 13 line.now }
    ensures room { length result.now ≤ length line.now }
{
    match line.last() {
        Some(b'\r') => &line[..line.len() - 1],
        _ => line,
    }
}

pub(crate) fn split_line(text: &[u8]) -> (&[u8], &[u8])
    requires { 0 < length text.now }
    ensures lines { lines_of text.now ≡ result.0.now ∷ lines_of result.1.now }
    ensures shorter { length result.1.now < length text.now }
{
    match cut(b'\n', text) {
        Some((piece, after)) => (without_return(piece), after),
        None => (without_return(text), &text[text.len()..]),
    }
}
