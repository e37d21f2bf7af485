//! The digested bytes of a key, and their digest.
ghost use Rattle.std.specs.Prelude.{◌≡◌, ◌<◌, ◌^◌, ℕ, List, IfOk};
ghost use Rattle.base_store.specs.Keys.{digested_key};

use echo_filed::Key;
use std::alloc::{AllocError, Global};

/// A digest of eight bytes by a key, the same for the same bytes. Two lists of bytes may have one digest.
pub trait Digest: Drop {
    ghost digest: { Self → List ℕ → ℕ };

    ghost keyed: { ℕ → ℕ → List ℕ → ℕ };

    /// The digest by the key of these two halves.
    fn keyed(first: u64, second: u64) -> Self
        ensures { digest result ≡ keyed first second };

    fn of(&self, bytes: &[u8]) -> u64
        ensures { result ≡ digest self.now bytes.now };

    ghost fits: { (first second : ℕ) (bytes : List ℕ) → keyed first second bytes < 2 ^ 64 };
}

/// The digest of a message with this key: of its id, whatever the area, or else of all parts of the key.
pub fn digest_of_key<H: Digest>(alloc: Global, digest: &H, key: &Key) -> Result<u64, AllocError>
    ensures { IfOk result (λ found. found ≡ H.digest digest.now (digested_key key.now)) }
{
    match key {
        Key::ById { tag: _, msgid } => Ok(digest.of(msgid.as_slice())),
        Key::ByContent {
            tag,
            date,
            to_name,
            from_name,
            subject,
            kept,
        } => {
            let mut bytes = Vec::from_slice(alloc, tag.as_slice())?;
            bytes.extend_from_slice(date.as_slice())?;
            bytes.extend_from_slice(to_name.as_slice())?;
            bytes.extend_from_slice(from_name.as_slice())?;
            bytes.extend_from_slice(subject.as_slice())?;
            bytes.extend_from_slice(kept.lines().as_text())?;
            Ok(digest.of(&bytes))
        }
    }
}
