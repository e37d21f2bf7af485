//! A packed message (FTS-0001).

ghost use Rattle.std.specs.Prelude.{◌≡◌, ◌≤◌, ◌↔◌, length, IsTrue, IfOk, IfErr, IfSome, IsNone, Err, Some};
ghost use Rattle.echo_packet.specs.Message.{HasNoZero, Message, IsMessage, IsString, AreStrings, IsFirstBad, max_name, max_subject};
ghost use Rattle.echo_packet.specs.{Parts.message_with, declared.fault.Field.Field, declared.fault.PacketFault.TheVariants.BadField};

use crate::fault::{Field, PacketFault};
use crate::limits::{MAX_NAME, MAX_SUBJECT};
use disk_io::are_bytes;
use echo_addr::Items;
use memchr::memchr;
use std::alloc::Global;
use std::marker::Model;

/// A packed message: three strings and a text, without 00. The names have at most `MAX_NAME` bytes and the
/// subject at most `MAX_SUBJECT`.
#[derive(Debug, Drop)]
pub struct Packed {
    orig_node: u16,
    dest_node: u16,
    orig_net: u16,
    dest_net: u16,
    attribute: u16,
    cost: u16,
    date: [u8; 20],
    to_name: Items<u8>,
    from_name: Items<u8>,
    subject: Items<u8>,
    text: Items<u8>,
}

/// The numbers of a message: the nodes and nets of its two systems, the attributes and the cost.
#[derive(Clone, Copy, Debug)]
pub struct PackedNumbers {
    pub orig_node: u16,
    pub dest_node: u16,
    pub orig_net: u16,
    pub dest_net: u16,
    pub attribute: u16,
    pub cost: u16,
}

/// The strings of a message, each without its 00. Those of an earlier message are buffers for a later one.
#[derive(Debug, Drop)]
pub struct Buffers {
    pub to_name: Vec<u8>,
    pub from_name: Vec<u8>,
    pub subject: Vec<u8>,
    pub text: Vec<u8>,
}

impl Buffers {
    /// Buffers without bytes. Takes no memory.
    pub fn new(alloc: Global) -> Buffers {
        Buffers {
            to_name: Vec::new(alloc),
            from_name: Vec::new(alloc),
            subject: Vec::new(alloc),
            text: Vec::new(alloc),
        }
    }
}

impl Model for Packed {
    ghost use Rattle.std.specs.Prelude.{length};
    ghost use Rattle.echo_packet.specs.Message.{Message, IsMessage};

    ghost Value = { Message };

    ghost use Rattle.echo_packet.specs.Packed.{message_of};

    ghost view = { message_of };

    ghost invariant = { λ p. IsMessage (length (message_of p).text) (message_of p) };
}

fn is_string(bytes: &[u8], most: usize) -> bool
    ensures { IsTrue result ↔ IsString most bytes.now }
{
    bytes.len() <= most && memchr(0, bytes).is_none()
}

fn first_bad(to_name: &[u8], from_name: &[u8], subject: &[u8], text: &[u8]) -> Option<Field>
    ensures found { IfSome result (IsFirstBad to_name.now from_name.now subject.now text.now) }
    ensures none { IsNone result → AreStrings to_name.now from_name.now subject.now text.now }
{
    if !is_string(to_name, MAX_NAME) {
        Some(Field::ToName)
    } else if !is_string(from_name, MAX_NAME) {
        Some(Field::FromName)
    } else if !is_string(subject, MAX_SUBJECT) {
        Some(Field::Subject)
    } else if !is_string(text, text.len()) {
        Some(Field::Text)
    } else {
        None
    }
}

impl Packed {
    /// The message of these parts, the strings without their 00. `BadField` is the first of the names, the subject and
    /// the text that holds 00 or is too long (`MAX_NAME`, `MAX_SUBJECT`; a text has no limit).
    #[allow(clippy::too_many_arguments)]
    pub fn new(
        orig_node: u16,
        dest_node: u16,
        orig_net: u16,
        dest_net: u16,
        attribute: u16,
        cost: u16,
        date: [u8; 20],
        to_name: Vec<u8>,
        from_name: Vec<u8>,
        subject: Vec<u8>,
        text: Vec<u8>,
    ) -> Result<Packed, PacketFault>
        ensures made { IfOk result (λ p. p ≡ record { orig_node = orig_node; dest_node = dest_node; orig_net = orig_net; dest_net = dest_net; attribute = attribute; cost = cost; date = date; to_name = to_name.items; from_name = from_name.items; subject = subject.items; text = text.items }) }
        ensures message { IfOk result (λ p. IsMessage (length p.text) p) }
        ensures refused { (field : Field) → (result ≡ Err (BadField field)) ↔ IsFirstBad to_name.items from_name.items subject.items text.items field }
        ensures only_refused { IfErr result (λ fault. (field : Field) × (fault ≡ BadField field)) }
    {
        match first_bad(&to_name, &from_name, &subject, &text) {
            Some(field) => Err(PacketFault::BadField(field)),
            None => {
                let numbers = PackedNumbers {
                    orig_node,
                    dest_node,
                    orig_net,
                    dest_net,
                    attribute,
                    cost,
                };
                let strings = Buffers {
                    to_name,
                    from_name,
                    subject,
                    text,
                };
                Ok(Packed::from_parts(numbers, date, strings))
            }
        }
    }

    /// The message of parts that are already judged. Takes no memory.
    pub fn from_parts(numbers: PackedNumbers, date: [u8; 20], strings: Buffers) -> Packed
        requires to_name { HasNoZero strings.to_name.items × (length strings.to_name.items ≤ max_name) }
        requires from_name { HasNoZero strings.from_name.items × (length strings.from_name.items ≤ max_name) }
        requires subject { HasNoZero strings.subject.items × (length strings.subject.items ≤ max_subject) }
        requires text { HasNoZero strings.text.items }
        ensures { result ≡ message_with numbers date strings }
    {
        let Buffers {
            to_name,
            from_name,
            subject,
            text,
        } = strings;
        // For the prover alone: each byte is below 256.
        are_bytes(&date);
        are_bytes(&to_name);
        are_bytes(&from_name);
        are_bytes(&subject);
        are_bytes(&text);
        Packed {
            orig_node: numbers.orig_node,
            dest_node: numbers.dest_node,
            orig_net: numbers.orig_net,
            dest_net: numbers.dest_net,
            attribute: numbers.attribute,
            cost: numbers.cost,
            date,
            to_name: Items::new(to_name),
            from_name: Items::new(from_name),
            subject: Items::new(subject),
            text: Items::new(text),
        }
    }

    /// The buffers of its strings.
    pub fn into_buffers(self) -> Buffers {
        Buffers {
            to_name: self.to_name.into_vec(),
            from_name: self.from_name.into_vec(),
            subject: self.subject.into_vec(),
            text: self.text.into_vec(),
        }
    }

    /// The node of the system that sent the packet.
    pub fn orig_node(&self) -> u16
        ensures { result ≡ self.now.orig_node }
    {
        self.orig_node
    }

    /// The node of the system that the packet is for.
    pub fn dest_node(&self) -> u16
        ensures { result ≡ self.now.dest_node }
    {
        self.dest_node
    }

    /// The net of the system that sent the packet.
    pub fn orig_net(&self) -> u16
        ensures { result ≡ self.now.orig_net }
    {
        self.orig_net
    }

    /// The net of the system that the packet is for.
    pub fn dest_net(&self) -> u16
        ensures { result ≡ self.now.dest_net }
    {
        self.dest_net
    }

    /// The AttributeWord.
    pub fn attribute(&self) -> u16
        ensures { result ≡ self.now.attribute }
    {
        self.attribute
    }

    /// The cost.
    pub fn cost(&self) -> u16
        ensures { result ≡ self.now.cost }
    {
        self.cost
    }

    /// DateTime, unchanged.
    pub fn date(&self) -> &[u8; 20]
        ensures { result.now ≡ self.now.date }
    {
        &self.date
    }

    /// toUserName, without its 00.
    pub fn to_name(&self) -> &[u8]
        ensures { result.now ≡ self.now.to_name }
    {
        self.to_name.as_slice()
    }

    /// fromUserName, without its 00.
    pub fn from_name(&self) -> &[u8]
        ensures { result.now ≡ self.now.from_name }
    {
        self.from_name.as_slice()
    }

    /// The subject, without its 00.
    pub fn subject(&self) -> &[u8]
        ensures { result.now ≡ self.now.subject }
    {
        self.subject.as_slice()
    }

    /// The text, without its 00.
    pub fn text(&self) -> &[u8]
        ensures text { result.now ≡ self.now.text }
        ensures message { IsMessage (length self.now.text) self.now }
    {
        self.text.as_slice()
    }
}
