//! Reads a received message: it is refused, or becomes a filed message.
ghost use Rattle.std.specs.Prelude.{◌≡◌, IfOk};
ghost use Rattle.echo_text.specs.Echo.{FrontOf};
ghost use Rattle.echo_addr.specs.declared.address.Address.{Address as System};
ghost use Rattle.echo_filed.specs.Filed.{key_of};
ghost use Rattle.model_steps.specs.Tossing.{received};
ghost use Rattle.echo_steps.specs.Wanted.{IsRead, refused_by};

use crate::drafting::copied;
use echo_addr::Address;
use echo_filed::{Filed, Key};
use echo_links::LinkFile;
use echo_packet::Packed;
use echo_text::{FrontView, TextFault, view_front};
use model_steps::Outcome;
use std::alloc::{AllocError, Global};

#[derive(Drop)]
pub(crate) enum Reading<'a> {
    /// The text is echomail with this front, and the sender is a link of the area.
    Wanted(FrontView<'a>),
    Unwanted(Outcome),
}

pub(crate) fn read<'a>(
    alloc: Global,
    links: &LinkFile,
    sender: Address,
    packed: &'a Packed,
) -> Result<Reading<'a>, AllocError>
    ensures { IfOk result (IsRead links.now sender packed.now) }
{
    let front = match view_front(alloc, packed.text()) {
        Ok(front) => front,
        Err(TextFault::NotEcho) => return Ok(Reading::Unwanted(Outcome::NotEcho)),
        Err(TextFault::BadTag) => return Ok(Reading::Unwanted(Outcome::BadTag)),
        Err(_) => return Err(AllocError),
    };
    match refused_by(links, front.tag.as_slice(), sender) {
        Some(outcome) => Ok(Reading::Unwanted(outcome)),
        None => Ok(Reading::Wanted(front)),
    }
}

fn refused_by(links: &LinkFile, tag: &[u8], sender: Address) -> Option<Outcome>
    ensures { result ≡ refused_by links.now tag.now sender }
{
    if !links.has_area(tag) {
        return Some(Outcome::NoArea);
    }
    if !links.is_link(tag, sender) {
        return Some(Outcome::NotLinked);
    }
    None
}

/// The key of the message with this front of its text.
pub(crate) fn key_in(
    alloc: Global,
    packed: &Packed,
    front: &FrontView<'_>,
) -> Result<Key, AllocError>
    requires { FrontOf packed.now.text front.now.tag front.now.kept }
    ensures { IfOk result (λ key. (sender : System) → key ≡ key_of (received sender packed.now)) }
{
    Key::of_front(
        alloc,
        front,
        packed.date(),
        packed.to_name(),
        packed.from_name(),
        packed.subject(),
    )
}

pub(crate) fn received(
    alloc: Global,
    sender: Address,
    packed: &Packed,
    front: FrontView<'_>,
) -> Result<Filed, AllocError>
    requires { FrontOf packed.now.text front.tag front.kept }
    ensures { IfOk result (λ m. m ≡ received sender packed.now) }
{
    let text = packed.text();
    let to_name = copied(alloc, packed.to_name())?;
    let from_name = copied(alloc, packed.from_name())?;
    let subject = copied(alloc, packed.subject())?;
    let (echo, _) = front.into_echo(alloc, text)?;
    let Address { zone, net, node } = sender;
    Ok(Filed {
        sender: Some(Address { zone, net, node }),
        date: *packed.date(),
        to_name,
        from_name,
        subject,
        echo,
    })
}
