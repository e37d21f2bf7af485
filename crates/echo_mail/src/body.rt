//! The text of a mail.

ghost use Rattle.std.specs.Prelude.{◌≡◌, IfErr};
ghost use Rattle.echo_mail.specs.declared.fault.MailFault.TheVariants.{BadField};

use crate::content::charset_of;
use crate::ends::returned;
use crate::fault::MailFault;
use crate::head::Field;
use crate::mail::Mail;
use crate::transfer::{is_called, transferred};
use std::alloc::Global;

/// The text of the body, in UTF-8. Its lines end in 0D. A fault of its type comes before one of its bytes.
pub fn body_text(alloc: Global, mail: &Mail) -> Result<String, MailFault>
    ensures { IfErr result (λ fault. fault ≡ BadField → ⊥) }
{
    let fields = mail.fields.as_slice();
    let charset = charset_of(field_value(fields, b"Content-Type"))?;
    let word = field_value(fields, b"Content-Transfer-Encoding");
    let bytes = transferred(alloc, word, mail.body.as_slice())?;
    let text = returned(alloc, &bytes)?;
    Ok(charset.text(alloc, &text)?)
}

/// The value of the first field of this name, in letters of either case.
pub fn field_value<'a>(fields: &'a [Field], name: &[u8]) -> Option<&'a [u8]> {
    let found = fields
        .iter()
        .find(|field| is_called(field.name.as_slice(), name))?;
    Some(found.value.as_slice())
}
