//! Laws about the definitions. Each law is the contract of a function that does nothing.

ghost use Rattle.std.specs.Prelude.{◌≡◌, ◌≢◌, ℕ, List, [], ◌++◌, Option, Some, Result, Ok, Err};
ghost use Rattle.echo_packet.specs.{declared.header.Header.Header, declared.limits.Limits.Limits, Header.IsHeader, Header.header_bytes, Message.Message, Packet.PacketOf};
ghost use Rattle.model_steps.specs.{SystemState.SystemState, Tossing.destination_of, Tossing.sender_of};
ghost use Rattle.echo_steps.specs.declared.fault.TossCause.TheVariants as stop;
ghost use Rattle.echo_steps.specs.{declared.tally.Tally.Tally, Tallies.tally_of, PacketSteps.CountsToss, PacketSteps.IsForUs, PacketSteps.PacketStep, PacketSteps.TossFault, PacketSteps.WholeStep};

/// The toss of a packet's bytes, whatever follows them, from a reader that does not fail.
pub fn packet_laws()
    // At its destination it is the toss of its messages, in order; out of memory comes after the first of them.
    ensures whole { (limits : Limits) (header : Header) (ms : List Message) (bytes rest : List ℕ) (after : Option (List ℕ)) (old new : SystemState) (result : Result Tally TossFault) →
        PacketOf limits header ms bytes → IsForUs old header → PacketStep limits old (Some (bytes ++ rest)) after result new → CountsToss result 0 0 →
        WholeStep old (sender_of old.file header) ms result new }
    // If all messages were tossed, just their bytes were consumed.
    ensures taken { (limits : Limits) (header : Header) (ms : List Message) (bytes rest : List ℕ) (after : Option (List ℕ)) (old new : SystemState) (tally : Tally) →
        PacketOf limits header ms bytes → PacketStep limits old (Some (bytes ++ rest)) after (Ok tally) new → after ≡ Some rest }
    // At another system it is refused, whatever follows its header.
    ensures refused { (limits : Limits) (header : Header) (rest : List ℕ) (after : Option (List ℕ)) (old new : SystemState) (result : Result Tally TossFault) →
        IsHeader header → destination_of old.file header ≢ old.file.system → PacketStep limits old (Some (header_bytes header ++ rest)) after result new → CountsToss result 0 0 →
        (result ≡ Err (record { tally = tally_of []; cause = stop.NotForUs (destination_of old.file header) })) × (new ≡ old) }
{}
