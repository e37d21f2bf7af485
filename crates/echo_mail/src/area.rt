//! The area that a mail names.

use crate::body::field_value;
use crate::ends::cut;
use crate::head::Field;
use echo_text::trimmed;

/// The area that the header of a mail names: the value of X-FTN-Area, or else the first newsgroup (RFC 5536, 3.1.4).
pub fn named_area(fields: &[Field]) -> Option<&[u8]> {
    if let Some(area) = field_value(fields, b"X-FTN-Area") {
        return Some(area);
    }
    let (first, _) = cut(b',', field_value(fields, b"Newsgroups")?);
    Some(trimmed(first))
}
