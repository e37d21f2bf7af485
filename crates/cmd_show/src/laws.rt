//! What holds of the definitions. Each law is the contract of a function that does nothing.

ghost use Rattle.std.specs.Prelude.{◌≡◌, ℕ, Bool, List, Option, Some, Result};
ghost use Rattle.cmd_status.specs.{Devices.Output, declared.{fault.Fault.Fault, status.Status.Status}};
ghost use Rattle.{cmd_status.specs.Ended.IsOfInput, echo_packet.specs.{declared.header.Header.Header, Message.Message}, cmd_show.specs.Showing.{ShowAnswers, IsShown}};
ghost use Rattle.cmd_print.specs.Shown.{Shown};

/// A packet has one printing: after a good end of `show`, its output follows from its input alone. So does its answer,
/// unless standard output failed or memory ran out.
pub fn one_printing()
    ensures lines { (full : Bool) (h : Header) (ms : List Message) (n : ℕ) (a b : List ℕ) → Shown full h ms n a → Shown full h ms n b → a ≡ b }
    ensures input { (full hex : Bool) (input old : List ℕ) (new other : Option (List ℕ)) → IsShown full hex input (Some old) new → IsShown full hex input (Some old) other → new ≡ other }
    ensures answer { (full hex : Bool) (input : List ℕ) (old new other : Output) (r s : Result Status Fault) → ShowAnswers full hex input old new r → ShowAnswers full hex input old other s → IsOfInput old.failures new.failures r → IsOfInput old.failures other.failures s → r ≡ s }
{}
