//! The digests of keys, by SipHash with a key of the base.

ghost use Rattle.std.proofs.Common.{arith};
ghost use Rattle.base_store.specs.Sip.{sip_digest};

use crate::digest::Digest;
use std::hash::{DefaultHasher, Hasher};

/// SipHash of a key and of the bytes after it.
#[derive(Clone, Copy)]
pub struct SipDigest {
    first: u64,
    second: u64,
}

impl Digest for SipDigest {
    ghost digest = { λ d. sip_digest d.first d.second };

    ghost keyed = { sip_digest };

    ghost fits = { λ first second bytes. Prim.omega arith };

    fn keyed(first: u64, second: u64) -> SipDigest {
        SipDigest { first, second }
    }

    fn of(&self, bytes: &[u8]) -> u64 {
        let mut hasher = DefaultHasher::new();
        hasher.write(&self.first.to_le_bytes());
        hasher.write(&self.second.to_le_bytes());
        hasher.write(bytes);
        hasher.finish()
    }
}
