//! A message as it is filed in a base.

use echo_addr::{Address, Items};
use echo_text::Echo;
use std::marker::Model;

/// A message of a base; `sender` is none if it was posted here. Names have at most 35 bytes and the subject 71, no 00.
#[derive(Debug, Drop)]
pub struct Filed {
    pub sender: Option<Address>,
    pub date: [u8; 20],
    pub to_name: Items<u8>,
    pub from_name: Items<u8>,
    pub subject: Items<u8>,
    pub echo: Echo,
}

impl Model for Filed {
    ghost use Rattle.echo_filed.specs.Filed as model;
    ghost use Rattle.echo_filed.specs.Filed.{IsFiled};

    ghost Value = { model.Filed };

    ghost view = { λ m. record {
      sender = m.sender;
      date = m.date;
      to_name = m.to_name;
      from_name = m.from_name;
      subject = m.subject;
      echo = m.echo;
    } };

    ghost invariant = { λ m. IsFiled (record {
      sender = m.sender;
      date = m.date;
      to_name = m.to_name;
      from_name = m.from_name;
      subject = m.subject;
      echo = m.echo;
    }) };
}
