//! The lines of link files and scripts.

ghost use Rattle.std.specs.{Prelude.◌≡◌, Prelude.◌<◌, Prelude.◌∷◌, Prelude.length, List.list_all, List.list_any};
ghost use Rattle.echo_links.specs.LinkLines.{file_lines, is_control_byte, is_skipped, is_space_or_tab, without_return};

use memchr::memchr;

/// The first line of a link file or a script, and the bytes after its end. A line ends in 0A or in
/// 0D 0A; the last may end without either. The bytes are not empty. Takes no memory.
pub fn split_line(bytes: &[u8]) -> (&[u8], &[u8])
    requires { 0 < length bytes.now }
    ensures lines { file_lines bytes.now ≡ result.0.now ∷ file_lines result.1.now }
    ensures shorter { length result.1.now < length bytes.now }
{
    match memchr(b'\n', bytes) {
        Some(end) => (without_return(&bytes[..end]), &bytes[end + 1..]),
        None => (bytes, &bytes[bytes.len()..]),
    }
}

fn without_return(line: &[u8]) -> &[u8]
    ensures { result.now ≡ without_return line.now }
{
    match line.last() {
        Some(b'\r') => &line[..line.len() - 1],
        _ => line,
    }
}

/// Whether the line is blank or begins with `;`.
pub fn is_skipped(line: &[u8]) -> bool
    ensures { result ≡ is_skipped line.now }
{
    is_blank(line) || line.starts_with(b";")
}

fn is_blank(line: &[u8]) -> bool
    ensures { result ≡ list_all is_space_or_tab line.now }
{
    line.iter().all(|b| is_space(*b))
}

/// Whether a byte of the line is below 20 and not 09.
pub fn has_control_byte(line: &[u8]) -> bool
    ensures { result ≡ list_any is_control_byte line.now }
{
    line.iter().any(|b| is_control_byte(*b))
}

fn is_space(byte: u8) -> bool
    ensures { result ≡ is_space_or_tab byte }
{
    byte == b' ' || byte == b'\t'
}

fn is_control_byte(byte: u8) -> bool
    ensures { result ≡ is_control_byte byte }
{
    byte < b' ' && byte != b'\t'
}
