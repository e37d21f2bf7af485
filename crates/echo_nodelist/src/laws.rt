//! Laws about the definitions. Each law is the contract of a function that does nothing.

ghost use Rattle.std.specs.Prelude.{◌≡◌, ℕ, List};
ghost use Rattle.echo_nodelist.specs.{declared.fault.NodeFault.NodeFault, declared.line.Line.Line, Nodelist.NodelistFaultOf, Nodelist.IsNodelist, Nodelist.NodelistOf, Written.nodelist_text};

/// The written bytes of a nodelist are that nodelist.
#[tactic(auto, using(crate::proofs::ReadBack::written_again))]
pub fn written_nodelist_read_back()
    ensures { (lines : List Line) → IsNodelist lines → NodelistOf (nodelist_text lines) lines }
{}

/// Bytes are one nodelist at most, have one first fault at most, and never both. The nodelist keeps the rules.
pub fn one_nodelist()
    ensures same { (bytes : List ℕ) (some others : List Line) → NodelistOf bytes some → NodelistOf bytes others → some ≡ others }
    ensures fault { (bytes : List ℕ) (one other : NodeFault) → NodelistFaultOf bytes one → NodelistFaultOf bytes other → one ≡ other }
    ensures faulty { (bytes : List ℕ) (lines : List Line) (fault : NodeFault) → NodelistOf bytes lines → NodelistFaultOf bytes fault → ⊥ }
    ensures whole { (bytes : List ℕ) (lines : List Line) → NodelistOf bytes lines → IsNodelist lines }
{}
