//! Laws about the definitions. Each law is the contract of a function that does nothing.

ghost use Rattle.std.specs.Prelude.{◌≡◌, ◌⊎◌, ℕ, List, All, Contains, Some, Result, Ok, Err, filter};
ghost use Rattle.echo_text.specs.Echo.{EchoOf, EchoText, HasNoZero, IsEcho, TextOf};
ghost use Rattle.echo_text.specs.Lines.{begins, is_origin, is_tear, msgid_word, reply_word};
ghost use Rattle.echo_text.specs.{declared.fault.TextFault.TextFault, declared.fault.TextFault.TheVariants.Memory, Refusal.TextAnswers, Refusal.text_refusal, Tail.kept_of};

/// A written text has no 00, and is read back as its `Echo`, no token dropped. A reader answers that, or out of memory.
pub fn written_text_read_back()
    ensures parts { (e : EchoText) (text : List ℕ) → IsEcho e → TextOf e text → EchoOf text e 0 }
    ensures no_zero { (e : EchoText) (text : List ℕ) → IsEcho e → TextOf e text → HasNoZero text }
    ensures read { (e : EchoText) (text : List ℕ) (r : Result (EchoText × ℕ) TextFault) → IsEcho e → TextOf e text → TextAnswers text r → (r ≡ Ok (e, 0)) ⊎ (r ≡ Err Memory) }
{}

/// MSGID, REPLY, tear and origin lines after the AREA line are kept unchanged, all of them and in
/// order. Each kept line is a line of the text.
#[tactic(auto, using(crate::proofs::KeptLines::msgids_kept, crate::proofs::KeptLines::replies_kept, crate::proofs::KeptLines::tears_kept, crate::proofs::KeptLines::origins_kept, crate::proofs::KeptLines::kept_are_lines))]
pub fn kept_as_they_stand()
    ensures msgid { (later : List (List ℕ)) → filter (begins msgid_word) (kept_of later) ≡ filter (begins msgid_word) later }
    ensures reply { (later : List (List ℕ)) → filter (begins reply_word) (kept_of later) ≡ filter (begins reply_word) later }
    ensures tear { (later : List (List ℕ)) → filter is_tear (kept_of later) ≡ filter is_tear later }
    ensures origin { (later : List (List ℕ)) → filter is_origin (kept_of later) ≡ filter is_origin later }
    ensures lines { (later : List (List ℕ)) → All (Contains later) (kept_of later) }
{}

/// The parts of a text keep the rules of an `Echo`, and a text has only one reading: a reader
/// answers it, or out of memory. Where a refusal applies, each reader answers that. So any two
/// readers, as `read_text` and `view_text`, answer the same.
pub fn one_reading()
    ensures echo { (text : List ℕ) (e : EchoText) (d : ℕ) → HasNoZero text → EchoOf text e d → IsEcho e }
    ensures same { (text : List ℕ) (e f : EchoText) (m n : ℕ) → EchoOf text e m → EchoOf text f n → (e ≡ f) × (m ≡ n) }
    ensures only { (text : List ℕ) (e : EchoText) (d : ℕ) (r : Result (EchoText × ℕ) TextFault) → EchoOf text e d → TextAnswers text r → (r ≡ Ok (e, d)) ⊎ (r ≡ Err Memory) }
    ensures refused { (text : List ℕ) (fault : TextFault) (r : Result (EchoText × ℕ) TextFault) → text_refusal text ≡ Some fault → TextAnswers text r → r ≡ Err fault }
    ensures readers { (text : List ℕ) (r s : Result (EchoText × ℕ) TextFault) → TextAnswers text r → TextAnswers text s → (r ≡ s) ⊎ ((r ≡ Err Memory) ⊎ (s ≡ Err Memory)) }
{}

/// An echo has one text. A text that was read and written once is written again as itself.
pub fn one_writing()
    ensures same { (e : EchoText) (b c : List ℕ) → TextOf e b → TextOf e c → b ≡ c }
    ensures again { (text : List ℕ) (e f : EchoText) (d n : ℕ) (b c : List ℕ) → HasNoZero text → EchoOf text e d → TextOf e b → EchoOf b f n → TextOf f c → (f ≡ e) × (n ≡ 0) × (c ≡ b) }
{}
