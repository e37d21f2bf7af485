//! Laws about the definitions. Each law is the contract of a function that does nothing.

ghost use Rattle.std.specs.Prelude.{◌≡◌, ℕ, ◌+◌, ◌<◌, ◌≤◌, ◌⊎◌, List, [], ◌∷◌, ◌++◌, length, take, Ok};
ghost use Rattle.echo_packet.specs.Header.{AreBytes, IsHeader, header_bytes, header_of, number_at, word};
ghost use Rattle.echo_packet.specs.declared.{header.Header.Header, limits.Limits.Limits, fault.PacketFault.PacketFault};
ghost use Rattle.echo_packet.specs.{Message.Message, Message.AreMessages, Message.IsMessage, Message.message_bytes, Packet.packet_bytes, Fault.FaultOf, Fault.place_of};
ghost use Rattle.echo_packet.specs.{Answer.Answer, Answer.Describes, Next.NextFault, Run.IsOfCall, Run.SoFar};

/// A header is undone by its bytes, and its bytes by the header that they give.
pub fn header_laws()
    ensures given_back { (h : Header) (rest : List ℕ) → IsHeader h → header_of (header_bytes h ++ rest) ≡ h }
    ensures written_again { (bs : List ℕ) → AreBytes bs → 58 ≤ length bs → number_at 18 bs ≡ 2 → header_bytes (header_of bs) ≡ take 58 bs }
{}

/// Bytes are a packet within the limits or have one fault, and only one of these holds.
pub fn one_answer()
    ensures { (limits : Limits) (bs : List ℕ) → AreBytes bs →
        (answer : Answer) × Describes limits bs answer × ((other : Answer) → Describes limits bs other → other ≡ answer) }
{}

/// A written packet is read back, whatever follows it, if its messages keep the limits.
pub fn written_packet_reads_back()
    ensures { (limits : Limits) (h : Header) (ms : List Message) (rest : List ℕ) → IsHeader h → AreMessages limits ms →
        Describes limits (packet_bytes h ms ++ rest) (Ok (h, ms, length (packet_bytes h ms))) }
{}

/// The bytes that are read message by message are a packet or have one fault. The calls of
/// `PacketReader` go from one `SoFar` to the next, and end in that packet or that fault.
pub fn whole_runs()
    ensures opens { (limits : Limits) (bs : List ℕ) (h : Header) (rest : List ℕ) → IsHeader h → bs ≡ header_bytes h ++ rest → SoFar limits bs h [] rest 0 58 }
    ensures gives { (limits : Limits) (bs : List ℕ) (h : Header) (ms : List Message) (left rest : List ℕ) (given at : ℕ) (m : Message) → SoFar limits bs h ms left given at →
        left ≡ message_bytes m ++ rest → IsMessage limits.text m → given < limits.messages →
        SoFar limits bs h (ms ++ m ∷ []) rest (given + 1) (place_of (at + length (message_bytes m))) }
    ensures ends { (limits : Limits) (bs : List ℕ) (h : Header) (ms : List Message) (left rest : List ℕ) (given at : ℕ) → SoFar limits bs h ms left given at →
        left ≡ word 0 ++ rest → Describes limits bs (Ok (h, ms, length (packet_bytes h ms))) }
    ensures fails { (limits : Limits) (bs : List ℕ) (h : Header) (ms : List Message) (left : List ℕ) (given at : ℕ) (f : PacketFault) → SoFar limits bs h ms left given at →
        NextFault limits given at left f → FaultOf bs limits ms f ⊎ IsOfCall f }
{}

/// Bytes that begin with no whole message and no terminator have one fault of `next`, with one place.
pub fn one_next_fault()
    ensures { (limits : Limits) (given start : ℕ) (bs : List ℕ) (f other : PacketFault) → NextFault limits given start bs f → NextFault limits given start bs other →
        (other ≡ f) ⊎ (IsOfCall f ⊎ IsOfCall other) }
{}
