//! Addresses of systems, zone:net/node, and their net and node.

ghost use Rattle.std.specs.Prelude.{◌≡◌, ◌↔◌, ◌&&◌, false, min, IsNone, IfSome};
ghost use Rattle.std.specs.Str.Parse.{digits_value};
ghost use Rattle.echo_addr.specs.Address.{AddressOf, address_text, address_within, has_shape, net_node_of, net_node_text, net_part, node_part, outcome, refusal, zone_part};
ghost use Rattle.echo_addr.specs.{Digits.is_number, declared.fault.AddrFault.AddrFault};

use crate::digits::number;
use crate::fault::AddrFault;
use crate::places::{count, place};
use std::fmt;

/// The greatest part of an address.
const MOST: u32 = 32767;

/// A system's address (FTS-5000): zone and net 1 to 32,767 and node 0 to 32,767 where `parse` made
/// it. Ordered by zone, net and node.
#[derive(Clone, Copy, Debug, PartialEq, Eq, PartialOrd, Ord, Hash)]
pub struct Address {
    pub zone: u16,
    pub net: u16,
    pub node: u16,
}

/// An entry of a SEEN-BY or PATH line (FTS-0004): each part 0 to 65,535. Ordered by net and node.
#[derive(Clone, Copy, Debug, PartialEq, Eq, PartialOrd, Ord, Hash)]
pub struct NetNode {
    pub net: u16,
    pub node: u16,
}

/// Writes `zone:net/node` in decimal without leading zeros.
impl fmt::Display for Address {
    ghost use Rattle.std.specs.Prelude.{Some};

    ghost output = { λ a. Some (address_text a) };

    fn fmt<W: fmt::Write>(&self, f: &mut fmt::Formatter<W>) -> fmt::Result {
        let zone = self.zone;
        let entry = self.net_node();
        write!(f, "{zone}:{entry}")
    }
}

/// Writes `net/node` in decimal without leading zeros.
impl fmt::Display for NetNode {
    ghost use Rattle.std.specs.Prelude.{Some};

    ghost output = { λ e. Some (net_node_text e) };

    fn fmt<W: fmt::Write>(&self, f: &mut fmt::Formatter<W>) -> fmt::Result {
        let net = self.net;
        let node = self.node;
        write!(f, "{net}/{node}")
    }
}

impl Address {
    /// The address that the bytes write as `zone:net/node`. Leading zeros are allowed.
    pub fn parse(bytes: &[u8]) -> Result<Address, AddrFault>
        ensures ok { (a : Address) → (result ≡ Ok a) ↔ AddressOf bytes.now a }
        ensures err { (f : AddrFault) → (result ≡ Err f) ↔ (refusal bytes.now ≡ Some f) }
    {
        judged(bytes)
    }

    /// The net and the node, without the zone.
    pub fn net_node(self) -> NetNode
        ensures { result ≡ net_node_of self }
    {
        NetNode {
            net: self.net,
            node: self.node,
        }
    }
}

fn judged(bytes: &[u8]) -> Result<Address, AddrFault>
    ensures { result ≡ outcome bytes.now }
{
    if bytes.is_empty() {
        return Err(AddrFault::Empty);
    }
    let Some((zone, net, node)) = parts_of(bytes) else {
        return Err(AddrFault::Shape);
    };
    let Some((zone, net, node)) = numbers(zone, net, node) else {
        return Err(AddrFault::NotDigits);
    };
    in_range(zone, net, node)
}

fn numbers(zone: &[u8], net: &[u8], node: &[u8]) -> Option<(u32, u32, u32)>
    ensures none { IsNone result ↔ ((is_number zone.now && is_number net.now && is_number node.now) ≡ false) }
    ensures zone { IfSome result (λ p. p.0 ≡ min (digits_value 10 zone.now) 32768) }
    ensures net { IfSome result (λ p. p.1 ≡ min (digits_value 10 net.now) 32768) }
    ensures node { IfSome result (λ p. p.2 ≡ min (digits_value 10 node.now) 32768) }
{
    Some((
        number(MOST + 1, zone)?,
        number(MOST + 1, net)?,
        number(MOST + 1, node)?,
    ))
}

fn parts_of(bytes: &[u8]) -> Option<(&[u8], &[u8], &[u8])>
    ensures none { IsNone result ↔ (has_shape bytes.now ≡ false) }
    ensures zone { IfSome result (λ p. p.0.now ≡ zone_part bytes.now) }
    ensures net { IfSome result (λ p. p.1.now ≡ net_part bytes.now) }
    ensures node { IfSome result (λ p. p.2.now ≡ node_part bytes.now) }
{
    if count(bytes, b':') != 1 || count(bytes, b'/') != 1 {
        return None;
    }
    let colon = place(bytes, b':')?;
    let slash = place(bytes, b'/')?;
    if slash <= colon {
        return None;
    }
    Some((
        &bytes[..colon],
        &bytes[colon + 1..slash],
        &bytes[slash + 1..],
    ))
}

fn in_range(zone: u32, net: u32, node: u32) -> Result<Address, AddrFault>
    ensures { result ≡ address_within zone net node }
{
    if zone < 1 || zone > MOST || net < 1 || net > MOST || node > MOST {
        return Err(AddrFault::OutOfRange);
    }
    Ok(Address {
        zone: zone as u16,
        net: net as u16,
        node: node as u16,
    })
}
