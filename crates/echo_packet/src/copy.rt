//! A message that copies share, each with its own destination.

ghost use Rattle.std.specs.Prelude.{◌≡◌, IfOk};
ghost use Rattle.echo_packet.specs.Message.{readdressed};

use crate::packed::Packed;
use std::alloc::{AllocError, Global};
use std::marker::Model;
use std::rc::Rc;

/// A packed message for one system. Copies share all but the node and net of their system; each takes a few bytes.
#[derive(Debug, Drop)]
pub struct PackedCopy {
    dest_node: u16,
    dest_net: u16,
    message: Rc<Packed>,
}

impl Model for PackedCopy {
    ghost use Rattle.echo_packet.specs.Message.{Message, readdressed};

    ghost Value = { Message };

    ghost view = { λ copy. readdressed copy.message.value copy.dest_node copy.dest_net };
}

impl PackedCopy {
    /// The message itself, which other copies may share.
    pub fn new(alloc: Global, message: Packed) -> Result<PackedCopy, AllocError>
        ensures { IfOk result (λ copy. copy ≡ message) }
    {
        Ok(PackedCopy {
            dest_node: message.dest_node(),
            dest_net: message.dest_net(),
            message: Rc::new(alloc, message)?,
        })
    }

    /// The message for the system of this node and net. Takes no memory.
    pub fn readdressed_copy(&self, dest_node: u16, dest_net: u16) -> Result<PackedCopy, AllocError>
        ensures { IfOk result (λ copy. copy ≡ readdressed self.now dest_node dest_net) }
    {
        Ok(PackedCopy {
            dest_node,
            dest_net,
            message: self.message.clone()?,
        })
    }

    /// The node of the system that the copy is for.
    pub fn dest_node(&self) -> u16
        ensures { result ≡ self.now.dest_node }
    {
        self.dest_node
    }

    /// The net of the system that the copy is for.
    pub fn dest_net(&self) -> u16
        ensures { result ≡ self.now.dest_net }
    {
        self.dest_net
    }

    /// The message that it is a copy of: the same except for the system that it is for.
    pub fn message(&self) -> &Packed
        ensures { self.now ≡ readdressed result.now self.now.dest_node self.now.dest_net }
    {
        self.message.as_ref()
    }
}
