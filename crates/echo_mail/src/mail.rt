//! A mail, parsed.

ghost use Rattle.std.specs.Prelude.{◌≡◌, ◌⊎◌, IfErr};
ghost use Rattle.echo_mail.specs.declared.fault.MailFault.TheVariants.{BadField, Memory};

use crate::ends::{cut, returned};
use crate::fault::MailFault;
use crate::head::{Field, fields_of, head_and_body, unfolded};
use echo_addr::Items;
use std::alloc::Global;

/// A mail (RFC 5322): the fields of its header, and its body with lines that end in 0D.
#[derive(Debug, Drop)]
pub struct Mail {
    pub fields: Items<Field>,
    pub body: Items<u8>,
}

/// Takes a mail apart. A line `From ` that a mailbox has before it (RFC 4155) is left out.
pub fn read_mail(alloc: Global, bytes: &[u8]) -> Result<Mail, MailFault>
    ensures { IfErr result (λ fault. (fault ≡ BadField) ⊎ (fault ≡ Memory)) }
{
    let text = returned(alloc, bytes)?;
    let (head, body) = head_and_body(without_from(&text));
    let head = unfolded(alloc, head)?;
    let Some(fields) = fields_of(alloc, &head)? else {
        return Err(MailFault::BadField);
    };
    let body = Vec::from_slice(alloc, body)?;
    Ok(Mail {
        fields: Items::new(fields),
        body: Items::new(body),
    })
}

fn without_from(text: &[u8]) -> &[u8] {
    if text.starts_with(b"From ") {
        cut(b'\r', text).1
    } else {
        text
    }
}
