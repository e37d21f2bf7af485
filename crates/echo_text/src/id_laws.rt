//! Laws about message ids. Each law is the contract of a function that does nothing.

ghost use Rattle.std.specs.Prelude.{◌≡◌, ◌<◌, ◌^◌, ◌↔◌, ℕ, Bool, true, false, List};
ghost use Rattle.echo_addr.specs.{declared.address.Address.Address, Address.address_text};
ghost use Rattle.echo_text.specs.Ids.{IdOf, IsWide, SameId, SpellsId, doubled, id_of, is_id, undoubled};

/// Ids of different pairs of address and serial differ (FTS-0009).
#[tactic(auto, using(crate::proofs::OwnIds::ids_differ))]
pub fn ids_differ()
    ensures { (a b : Address) (s t : ℕ) → IsWide a → IsWide b → s < 2 ^ 32 → t < 2 ^ 32 → id_of a s ≡ id_of b t → (a ≡ b) × (s ≡ t) }
{}

/// Where each double quote of a text was doubled, undoing that gives the text.
#[tactic(auto, using(crate::proofs::Ids::undoubled_doubled))]
pub fn doubled_quotes_undone()
    ensures { (plain : List ℕ) → undoubled false (doubled plain) ≡ plain }
{}

/// The id that a system gives its message is read back as its address, unquoted, and its serial.
#[tactic(auto, using(crate::proofs::OwnIdParts::own_id))]
pub fn written_id_read_back()
    ensures { (a : Address) (s : ℕ) → IsWide a → s < 2 ^ 32 → IdOf (id_of a s) (address_text a) false s }
{}

/// Bytes spell at most one id.
pub fn one_id_is_spelled()
    ensures { (bytes o p : List ℕ) (quoted other : Bool) (s t : ℕ) → IdOf bytes o quoted s → IdOf bytes p other t → SameId o p quoted other s t }
{}

/// The test of an id passes exactly where the bytes spell one.
pub fn test_of_ids()
    ensures { (bytes : List ℕ) → (is_id bytes ≡ true) ↔ SpellsId bytes }
{}
