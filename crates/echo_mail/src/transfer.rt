//! The encodings of bodies (RFC 2045, 6).
ghost use Rattle.std.specs.Prelude.{◌≡◌, IfErr};
ghost use Rattle.echo_mail.specs.declared.fault.MailFault.TheVariants.{BadField};

use crate::fault::MailFault;
use crate::quoted::quoted_printable;
use base64::DecodeAllocError;
use base64::engine::general_purpose::STANDARD;
use std::alloc::{AllocError, Global};

/// The decoded bytes of a body, by its Content-Transfer-Encoding. Without one they are unchanged.
pub(crate) fn transferred(
    alloc: Global,
    word: Option<&[u8]>,
    body: &[u8],
) -> Result<Vec<u8>, MailFault>
    ensures { IfErr result (λ fault. fault ≡ BadField → ⊥) }
{
    let word = word.unwrap_or(b"7bit");
    if is_called(word, b"7bit") || is_called(word, b"8bit") || is_called(word, b"binary") {
        Ok(Vec::from_slice(alloc, body)?)
    } else if is_called(word, b"quoted-printable") {
        Ok(quoted_printable(alloc, body)?)
    } else if is_called(word, b"base64") {
        base64_body(alloc, body)
    } else {
        Err(MailFault::UnknownEncoding)
    }
}

// Bytes that are no digits are left out (6.8).
fn base64_body(alloc: Global, body: &[u8]) -> Result<Vec<u8>, MailFault>
    ensures { IfErr result (λ fault. fault ≡ BadField → ⊥) }
{
    let digits: Vec<u8> = body
        .iter()
        .copied()
        .filter(|b| b.is_ascii_alphanumeric() || b"+/=".contains(b))
        .collect(alloc)?;
    match from_base64(alloc, &digits)? {
        Some(bytes) => Ok(bytes),
        None => Err(MailFault::BadBase64),
    }
}

pub(crate) fn from_base64(alloc: Global, digits: &[u8]) -> Result<Option<Vec<u8>>, AllocError> {
    match STANDARD.decode(alloc, digits) {
        Ok(bytes) => Ok(Some(bytes)),
        Err(DecodeAllocError::OutOfMemory) => Err(AllocError),
        Err(DecodeAllocError::DecodeError(_)) => Ok(None),
    }
}

pub(crate) fn is_called(name: &[u8], word: &[u8]) -> bool {
    name.eq_ignore_ascii_case(word)
}
