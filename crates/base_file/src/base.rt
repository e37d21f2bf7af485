//! A base in memory: messages in order of filing, each key once, and the cursor.

ghost use Rattle.std.specs.Prelude.{◌≡◌, ℕ, List, not, [], ◌∷◌, ◌++◌, false, true, bytes_eq, length, map, slice_get, option_copied, if◌then◌else◌, IsTrue, IfOk, OnOk, OnErr};
ghost use Rattle.std.specs.{List.AllByRecursion, List.list_any, Map.keys_of, Map.values_of};
ghost use Rattle.echo_filed.specs.{Filed.has_id, Filed.key_of};
ghost use Rattle.base_file.specs.{Entries.HasTagIn, Entries.front_after, Base.IsBase, Base.is_known, Purging.changed_by, Purging.left_by};

mod loading;
mod saving;

use crate::purging::{lines_left, put_stubs};
use crate::range::PurgeRange;
use crate::tags::Tags;
use echo_filed::{Filed, Key, by_id};
use indexmap::IndexMap;
use indexmap::map::Entry;
pub use loading::Head;
pub(crate) use loading::version_of;
use std::alloc::{AllocError, Global};
use std::hash::BuildHasher;
use std::marker::Model;

/// The messages of a system in order of filing, no key twice. Those before the cursor were scanned. `S` hashes keys.
#[derive(Drop)]
pub struct Base<S: BuildHasher> {
    entries: IndexMap<Key, Filed, S>,
    tags: Tags,
    cursor: usize,
    // This many messages from the front are known to be stubs.
    purged: usize,
}

impl<S: BuildHasher> Model for Base<S> {
    ghost use Rattle.std.specs.Map.{values_of};
    ghost use Rattle.base_file.specs.Base as model;
    ghost use Rattle.base_file.specs.Entries.{AreEntries};

    ghost Value = { model.Base };

    ghost view = { λ b. record { messages = values_of b.entries.entries; cursor = b.cursor } };

    ghost invariant = { λ b. AreEntries b.entries.entries b.tags b.cursor b.purged };
}

impl<S: BuildHasher> Base<S> {
    /// A base without messages. Takes no memory.
    pub fn new(alloc: Global, hasher: S) -> Base<S>
        ensures messages { result.messages ≡ [] }
        ensures cursor { result.cursor ≡ 0 }
    {
        Base {
            entries: IndexMap::with_hasher(alloc, hasher),
            tags: Tags::new(alloc),
            cursor: 0,
            purged: 0,
        }
    }

    /// How many messages there are.
    pub fn len(&self) -> usize
        ensures count { result ≡ length self.now.messages }
        ensures base { IsBase self.now.messages self.now.cursor }
    {
        self.entries.len()
    }

    /// How many of them, from the front, were scanned.
    pub fn cursor(&self) -> usize
        ensures cursor { result ≡ self.now.cursor }
        ensures base { IsBase self.now.messages self.now.cursor }
    {
        self.cursor
    }

    /// The message of this number, counted from 0 in order of filing.
    pub fn message(&self, i: usize) -> Option<&Filed>
        ensures { option_copied result ≡ slice_get self.now.messages i }
    {
        let (_, message) = self.entries.get_index(i)?;
        Some(message)
    }

    /// Whether a message has the key.
    pub fn knows(&self, key: &Key) -> bool
        ensures { result ≡ is_known self.now.messages key.now }
    {
        self.entries.contains_key(key)
    }

    /// Whether a message has the id, in any area. It makes one look-up for each tag of the base.
    pub fn has_id(&self, msgid: &[u8]) -> Result<bool, AllocError>
        ensures { IfOk result (λ found. found ≡ list_any (has_id msgid.now) self.now.messages) }
    {
        let alloc = *self.entries.allocator();
        'tags: for tag in self.tags.as_slice() {
            let key = by_id(alloc, tag, msgid)?;
            if self.knows(&key) {
                return Ok(true);
            }
        }
        Ok(false)
    }

    /// Appends a new message with its key. If memory is refused, the base is unchanged.
    pub fn file(&mut self, key: Key, message: Filed) -> Result<(), AllocError>
        requires own { key ≡ key_of message }
        requires new { is_known self.old.messages key ≡ false }
        ensures messages { OnOk result (self.new.messages ≡ self.old.messages ++ message ∷ []) }
        ensures cursor { self.new.cursor ≡ self.old.cursor }
        ensures refused { OnErr result (self.new ≡ self.old) }
    {
        self.add(key, message)?;
        Ok(())
    }

    fn add(&mut self, key: Key, message: Filed) -> Result<bool, AllocError>
        requires own { key ≡ key_of message }
        ensures added { IfOk result (λ added. added ≡ not (is_known self.old.messages (key_of message))) }
        ensures messages { IfOk result (λ added. self.new.messages
            ≡ (if added then self.old.messages ++ message ∷ [] else self.old.messages)) }
        ensures cursor { self.new.cursor ≡ self.old.cursor }
        ensures refused { OnErr result (self.new ≡ self.old) }
    {
        let echo = &message.echo;
        let tag = &echo.tag;
        keep_tag(&self.entries, &mut self.tags, tag.as_slice())?;
        push_new(&mut self.entries, key, message)
    }

    /// Moves the cursor to the end: all messages are scanned.
    pub fn move_to_end(&mut self)
        ensures messages { self.new.messages ≡ self.old.messages }
        ensures cursor { self.new.cursor ≡ length self.old.messages }
    {
        self.cursor = self.entries.len();
    }

    /// Replaces each scanned message in the range that has an id by its stub, which keeps only the id; answers how many
    /// changed. If memory is refused, the base is unchanged. Messages of an earlier purge of all areas are skipped.
    pub fn purge(&mut self, range: &PurgeRange) -> Result<u64, AllocError>
        ensures count { IfOk result (λ count. count ≡ changed_by range.now self.old.messages self.old.cursor) }
        ensures messages { OnOk result (self.new.messages ≡ left_by range.now self.old.messages self.old.cursor) }
        ensures cursor { self.new.cursor ≡ self.old.cursor }
        ensures refused { OnErr result (self.new ≡ self.old) }
    {
        let alloc = *self.entries.allocator();
        let end = range.end(self.cursor as u64) as usize;
        let start = self.purged.min(end);
        let lines = lines_left(alloc, &self.entries, range, start, end)?;
        let count = lines.len() as u64;
        put_stubs(alloc, &mut self.entries, range, start, end, lines);
        self.purged = front_after(range, self.purged, end);
        Ok(count)
    }
}

// How many messages from the front are known to be stubs after a purge that ends there.
fn front_after(range: &PurgeRange, purged: usize, end: usize) -> usize
    ensures { result ≡ front_after range.now.area purged end }
{
    match range.area {
        None if purged < end => end,
        _ => purged,
    }
}

fn push_new<S: BuildHasher>(
    entries: &mut IndexMap<Key, Filed, S>,
    key: Key,
    message: Filed,
) -> Result<bool, AllocError>
    requires own { keys_of entries.old.entries ≡ map key_of (values_of entries.old.entries) }
    ensures added { IfOk result (λ added. added ≡ not (is_known (values_of entries.old.entries) key)) }
    ensures entries { IfOk result (λ added. entries.new.entries
        ≡ (if added then entries.old.entries ++ (key, message) ∷ [] else entries.old.entries)) }
    ensures refused { OnErr result (entries.new.entries ≡ entries.old.entries) }
{
    match entries.entry(key)? {
        Entry::Occupied(_) => Ok(false),
        Entry::Vacant(place) => {
            place.insert(message);
            Ok(true)
        }
    }
}

// It looks at the last tag first: messages of one area often follow each other.
fn keep_tag<S: BuildHasher>(
    entries: &IndexMap<Key, Filed, S>,
    tags: &mut Tags,
    tag: &[u8],
) -> Result<(), AllocError>
    requires own { AllByRecursion (HasTagIn tags.old) (values_of entries.now.entries) }
    ensures found { OnOk result (list_any (bytes_eq tag.now) tags.new ≡ true) }
    ensures kept { (other : List ℕ) → list_any (bytes_eq other) tags.old ≡ true
        → list_any (bytes_eq other) tags.new ≡ true }
{
    if is_tag_of_last(entries, tag) {
        return Ok(());
    }
    let alloc = *entries.allocator();
    tags.note(alloc, tag)
}

fn is_tag_of_last<S: BuildHasher>(entries: &IndexMap<Key, Filed, S>, tag: &[u8]) -> bool
    ensures { IsTrue result → list_any (λ m. bytes_eq tag.now m.echo.tag) (values_of entries.now.entries) ≡ true }
{
    match entries.last() {
        Some((_, last)) => last.echo.tag.as_slice() == tag,
        None => false,
    }
}
