//! Laws about the definitions. Each law is the contract of a function that does nothing.
ghost use Rattle.std.specs.Prelude.{◌≡◌, ◌++◌, ℕ, List};
ghost use Rattle.echo_filed.specs.Filed.{Filed, key_of};
ghost use Rattle.base_store.specs.{Keys.{FolderRepresents, AreWhereRecorded, RecordsEach, digested, digested_key}, Index.IsIndexOf, declared.index.Index.Index};

/// In the keys of a base folder each message has an entry at its number, with the digest of its key.
pub fn each_message_has_its_entry()
    ensures { (digest : List ℕ → ℕ) (base : List Filed) (cursor : ℕ) (messages keys : List ℕ)
        → FolderRepresents digest base cursor messages keys → RecordsEach digest base keys }
{}

/// The digested bytes of a message follow from its key, so messages with one key have one digest.
pub fn equal_keys_have_one_digest()
    ensures { (m : Filed) → digested m ≡ digested_key (key_of m) }
{}

/// In a base folder each message is where its entry says, and ends where the next one begins.
pub fn each_message_is_where_recorded()
    ensures { (digest : List ℕ → ℕ) (base : List Filed) (cursor : ℕ) (messages keys : List ℕ)
        → FolderRepresents digest base cursor messages keys → AreWhereRecorded base messages keys }
{}

/// An index stays an index when keys are appended.
pub fn an_index_stays_one()
    ensures { (keys more : List ℕ) (index : Index) → IsIndexOf keys index → IsIndexOf (keys ++ more) index }
{}
