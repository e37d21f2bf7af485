//! Laws about the definitions. Each law is the contract of a function that does nothing.

ghost use Rattle.std.specs.{Prelude.{◌≡◌, ◌↔◌, ℕ, List, [], ◌∷◌, ◌++◌, Some, None, true, false}, List.{AllByRecursion, list_any}};
ghost use Rattle.echo_addr.specs.declared.address.Address.{Address};
ghost use Rattle.echo_packet.specs.Message.{IsMessage, Message};
ghost use Rattle.echo_text.specs.{Echo.IsEcho, Echo.msgid_of, Refusal.text_refusal, Ids.id_of};
ghost use Rattle.model_steps.specs.{Posting.IsAllowed, Posting.IsFirstRefusal, Posting.has_id, Posting.post_refusal, Posting.posting, Scanning.copy_to, Scanning.exported, Scanning.scanned, Purging.purged, Tossing.IsOutcome, Tossing.IsToBeFiled, Tossing.received, Tossing.toss_outcome, Tossing.tossing, declared.draft.Draft.Draft, declared.fault.PostFault.PostFault, declared.outcome.Outcome.Outcome, declared.stamp.Stamp.Stamp};
ghost use Rattle.echo_links.specs.Links.{IsFile, LinkFile, has_area};
ghost use Rattle.echo_filed.specs.Filed.{Filed, HasSmallSender, key_of};
ghost use Rattle.base_file.specs.{Base.IsBase, declared.range.PurgeRange.PurgeRange};

/// The exported copy of a message is echomail, its text is read back, and it has the key of the message.
pub fn copy_laws()
    ensures echo { (file : LinkFile) (m : Filed) → IsFile file → IsEcho m.echo → IsEcho (exported file m.echo) }
    ensures accepted { (file : LinkFile) (to : Address) (m : Filed) → IsFile file → IsEcho m.echo → text_refusal ((copy_to file to m).text) ≡ None }
    ensures read_back { (file : LinkFile) (from to : Address) (m : Filed) → IsFile file → IsEcho m.echo →
        received from (copy_to file to m) ≡ record { sender = Some from; date = m.date; to_name = m.to_name; from_name = m.from_name; subject = m.subject; echo = exported file m.echo } }
    ensures keep_keys { (file : LinkFile) (from to : Address) (m : Filed) → IsFile file → IsEcho m.echo → key_of (received from (copy_to file to m)) ≡ key_of m }
{}

/// A posting files an echomail message that no other system sent, in an area of the link file. Its id has the
/// system and the serial, and no message of the base has it.
pub fn posting_laws()
    ensures echo { (file : LinkFile) (base : List Filed) (tag : List ℕ) (draft : Draft) (serial : ℕ) (stamp : Stamp) (m : Filed) →
        IsFile file → posting file base tag draft serial stamp ≡ Some m → IsEcho m.echo }
    ensures own { (file : LinkFile) (base : List Filed) (tag : List ℕ) (draft : Draft) (serial : ℕ) (stamp : Stamp) (m : Filed) →
        posting file base tag draft serial stamp ≡ Some m → (m.sender ≡ None) × (has_area file m.echo.tag ≡ true) }
    ensures id { (file : LinkFile) (base : List Filed) (tag : List ℕ) (draft : Draft) (serial : ℕ) (stamp : Stamp) (m : Filed) →
        IsFile file → posting file base tag draft serial stamp ≡ Some m → msgid_of m.echo.kept ≡ Some (id_of file.system serial) }
    ensures new { (file : LinkFile) (base : List Filed) (tag : List ℕ) (draft : Draft) (serial : ℕ) (stamp : Stamp) (m : Filed) →
        posting file base tag draft serial stamp ≡ Some m → list_any (has_id (id_of file.system serial)) base ≡ false }
{}

/// A posting is refused with a reason exactly where that is the first that applies, and filed exactly where none
/// applies.
pub fn posting_refusals()
    ensures refused { (file : LinkFile) (base : List Filed) (tag : List ℕ) (draft : Draft) (serial : ℕ) (stamp : Stamp) (reason : PostFault) →
        (post_refusal file base tag draft serial stamp ≡ Some reason) ↔ IsFirstRefusal file base tag draft serial stamp reason }
    ensures filed { (file : LinkFile) (base : List Filed) (tag : List ℕ) (draft : Draft) (serial : ℕ) (stamp : Stamp) →
        (post_refusal file base tag draft serial stamp ≡ None) ↔ IsAllowed file base tag draft serial stamp }
{}

/// The outcome of a tossed message is the first one that applies.
pub fn toss_outcomes()
    ensures { (file : LinkFile) (base : List Filed) (sender : Address) (packed : Message) (outcome : Outcome) →
        (toss_outcome file base sender packed ≡ outcome) ↔ IsOutcome file base sender packed outcome }
{}

/// A toss files a message exactly if four things hold: its text is echomail, its area is in the link file, the
/// sender is a link of the area, and its key is new.
pub fn toss_law()
    ensures { (file : LinkFile) (base : List Filed) (sender : Address) (packed : Message) →
        (tossing file base sender packed ≡ Some (received sender packed)) ↔ IsToBeFiled file base sender packed }
{}

/// No text that a scan exports is refused where it is tossed.
pub fn scan_law()
    ensures { (file : LinkFile) (base : List Filed) (cursor : ℕ) (stamp : Stamp) → IsFile file → IsBase base cursor →
        AllByRecursion (λ packet. AllByRecursion (λ packed. text_refusal packed.text ≡ None) packet.messages) (scanned file base cursor stamp) }
{}

/// A base stays a base where a posting or a toss files a message, and where it is purged.
pub fn base_laws()
    ensures posted { (file : LinkFile) (base : List Filed) (cursor : ℕ) (tag : List ℕ) (draft : Draft) (serial : ℕ) (stamp : Stamp) (m : Filed) →
        IsFile file → IsBase base cursor → posting file base tag draft serial stamp ≡ Some m → IsBase (base ++ m ∷ []) cursor }
    ensures tossed { (most : ℕ) (file : LinkFile) (base : List Filed) (cursor : ℕ) (sender : Address) (packed : Message) (m : Filed) →
        HasSmallSender (Some sender) → IsMessage most packed → IsBase base cursor → tossing file base sender packed ≡ Some m → IsBase (base ++ m ∷ []) cursor }
    ensures purged { (range : PurgeRange) (base : List Filed) (cursor : ℕ) → IsBase base cursor → IsBase (purged range base cursor) cursor }
{}
