//! Laws about the definitions. Each is the contract of a function that does nothing, or that compares (the order).

ghost use Rattle.std.specs.Prelude.{◌≡◌, ◌≤◌, ◌↔◌, ℕ, List, [], length, All};
ghost use Rattle.std.specs.Ordering.{nat_cmp, ordering_then};
ghost use Rattle.echo_addr.specs.{declared.address.Address.Address, declared.address.NetNode.NetNode, Address.AddressOf, Address.IsAddress, Address.address_text};
ghost use Rattle.echo_addr.specs.ShortLines.{IsNetNode, ReadBack, ShortLines};

use crate::address::Address;
use std::cmp::Ordering;

/// The written text of an address in range is read as that address.
pub fn address_read_back()
    ensures { (a : Address) → IsAddress a → AddressOf (address_text a) a }
{}

/// The lines of a list, read one by one, give the list back, no token dropped. Between prefix and 0D
/// they have blanks, slashes and digits only.
pub fn written_lines_read_back()
    ensures { (prefix : List ℕ) (list : List NetNode) (b : List ℕ) → All IsNetNode list → ShortLines prefix list b → ReadBack prefix list b }
{}

/// A list has just one spelling, and the empty list has no bytes.
pub fn one_spelling()
    ensures some { (prefix : List ℕ) (list : List NetNode) → length prefix ≤ 67 → All IsNetNode list → (b : List ℕ) × ShortLines prefix list b }
    ensures same { (prefix : List ℕ) (list : List NetNode) (b c : List ℕ) → ShortLines prefix list b → ShortLines prefix list c → b ≡ c }
    ensures none { (prefix b : List ℕ) → ShortLines prefix [] b ↔ (b ≡ []) }
{}

/// The order of addresses, which sorting and maps have: by zone, then net, then node.
pub fn address_order(a: &Address, b: &Address) -> Ordering
    ensures { result ≡ ordering_then (nat_cmp a.now.zone b.now.zone) (ordering_then (nat_cmp a.now.net b.now.net) (nat_cmp a.now.node b.now.node)) }
{
    a.cmp(b)
}
