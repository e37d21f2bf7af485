//! Laws about the definitions. Each law is the contract of a function that does nothing.

ghost use Rattle.std.specs.Prelude.{◌≡◌, ◌↔◌, ℕ, List, None, true};
ghost use Rattle.echo_addr.specs.declared.address.NetNode.{NetNode};
ghost use Rattle.echo_text.specs.Echo.{EchoOf, EchoText, IsEcho, IsSetOf, TextOf};
ghost use Rattle.echo_text.specs.Refusal.{text_refusal};
ghost use Rattle.echo_filed.specs.{declared.key.Key.Key, Sets.entry_set, Written.echo_of, Written.text_of, Filed.Filed, Filed.key_of, Filed.same_key, Stubs.is_stub, Stubs.stub_of};

/// The test of keys passes exactly where they are the same.
pub fn key_law()
    ensures { (k l : Key) → (same_key k l ≡ true) ↔ (k ≡ l) }
{}

/// A purge keeps keys; a second one changes nothing. The stub test passes exactly where a purge changes nothing.
pub fn stub_laws()
    ensures keep_keys { (m : Filed) → key_of (stub_of m) ≡ key_of m }
    ensures stay { (m : Filed) → stub_of (stub_of m) ≡ stub_of m }
    ensures reported { (m : Filed) → (is_stub m ≡ true) ↔ (stub_of m ≡ m) }
{}

/// The entries of a list as a set: ascending, without repeats, with its members.
pub fn set_law()
    ensures { (all : List NetNode) → IsSetOf (entry_set all) all }
{}

/// Reading and writing of echomail texts agree with their definitions. A written text is read back, no token dropped.
pub fn text_laws()
    ensures said { (text : List ℕ) → text_refusal text ≡ None → (dropped : ℕ) × EchoOf text (echo_of text) dropped }
    ensures only_said { (text : List ℕ) (e : EchoText) (dropped : ℕ) → EchoOf text e dropped → (text_refusal text ≡ None) × (echo_of text ≡ e) }
    ensures written { (e : EchoText) → IsEcho e → TextOf e (text_of e) }
    ensures read_back { (e : EchoText) → IsEcho e → (text_refusal (text_of e) ≡ None) × (echo_of (text_of e) ≡ e) }
    ensures whole { (e : EchoText) → IsEcho e → EchoOf (text_of e) e 0 }
{}
