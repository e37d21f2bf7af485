//! Message ids that `export` made of ids.

use echo_addr::Items;
use hex::FromHexError;
use std::alloc::{AllocError, Global};

/// The id of the message that a message id of a mail was made of, where it was made of one.
pub fn exported_id(alloc: Global, value: &[u8]) -> Result<Option<Items<u8>>, AllocError> {
    let Some(digits) = exported_digits(value) else {
        return Ok(None);
    };
    match hex::decode(alloc, digits) {
        Ok(id) => Ok(Some(Items::new(id))),
        Err(FromHexError::OutOfMemory) => Err(AllocError),
        Err(_) => Ok(None),
    }
}

fn exported_digits(value: &[u8]) -> Option<&[u8]> {
    value.strip_prefix(b"<")?.strip_suffix(b"@fido.invalid>")
}
