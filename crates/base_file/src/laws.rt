//! Laws about the definitions. Each law is the contract of a function that does nothing.

ghost use Rattle.std.specs.Prelude.{◌≡◌, ℕ, ◌≤◌, List, ◌++◌, length, take, Result, Ok, true};
ghost use Rattle.echo_packet.specs.Header.{AreBytes};
ghost use Rattle.echo_filed.specs.{Filed.Filed, declared.stored.Version.TheVariants.Second};
ghost use Rattle.base_file.specs.BaseFile.{BaseFaultOf, BaseOf, LoadOf, Loaded, is_countable, magic, saved_bytes};
ghost use Rattle.base_file.specs.{declared.fault.BaseFault.BaseFault, Base.IsBase};

/// The saved bytes of a base that four bytes can count are a base file of it, read back whatever follows.
pub fn saved_base_law()
    ensures base { (base : List Filed) (cursor : ℕ) → IsBase base cursor → is_countable base cursor ≡ true → BaseOf base cursor (saved_bytes base cursor) }
    ensures read_back { (base : List Filed) (cursor : ℕ) (rest : List ℕ) → IsBase base cursor → is_countable base cursor ≡ true →
        LoadOf (saved_bytes base cursor ++ rest) (Ok (base, cursor, length (saved_bytes base cursor))) }
{}

/// A base file of version 2 is saved again as the same bytes, and four bytes can count its parts.
pub fn saved_again_law()
    ensures countable { (base : List Filed) (cursor : ℕ) (bytes : List ℕ) → BaseOf base cursor bytes → take 8 bytes ≡ magic Second → is_countable base cursor ≡ true }
    ensures same { (base : List Filed) (cursor : ℕ) (bytes : List ℕ) → BaseOf base cursor bytes → take 8 bytes ≡ magic Second → saved_bytes base cursor ≡ bytes }
{}

/// Bytes are a base, perhaps with more bytes after it, or have a fault, and only one of these holds.
pub fn one_base_or_fault()
    ensures answered { (bytes : List ℕ) → AreBytes bytes →
        (answer : Result Loaded BaseFault) × LoadOf bytes answer × ((other : Result Loaded BaseFault) → LoadOf bytes other → other ≡ answer) }
    ensures one_base { (base other : List Filed) (cursor at : ℕ) (bytes : List ℕ) → AreBytes bytes → BaseOf base cursor bytes → BaseOf other at bytes → (base ≡ other) × (cursor ≡ at) }
    ensures one_length { (base other : List Filed) (cursor at n m : ℕ) (bytes : List ℕ) → AreBytes bytes → n ≤ length bytes → m ≤ length bytes →
        BaseOf base cursor (take n bytes) → BaseOf other at (take m bytes) → n ≡ m }
    ensures no_fault { (base : List Filed) (cursor n : ℕ) (bytes : List ℕ) (refused : BaseFault) → AreBytes bytes → n ≤ length bytes →
        BaseOf base cursor (take n bytes) → BaseFaultOf bytes refused → ⊥ }
    ensures one_fault { (bytes : List ℕ) (refused other : BaseFault) → AreBytes bytes → BaseFaultOf bytes refused → BaseFaultOf bytes other → refused ≡ other }
{}

/// A base file gives a base.
pub fn loaded_base_law()
    ensures { (base : List Filed) (cursor : ℕ) (bytes : List ℕ) → BaseOf base cursor bytes → IsBase base cursor }
{}
