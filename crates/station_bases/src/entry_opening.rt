//! A base file of version 2 is opened: its messages are judged where they are, and their entries made.
ghost use Rattle.std.specs.Prelude.{◌≡◌, ◌≤◌, ◌<◌, ◌+◌, ◌-◌, ◌/◌, ◌++◌, ◌||◌, ◌&&◌, not, nat_lt, min, ℕ, [], List, true, false, length, drop, IfOk, IfSome, IsSome, OnErr, OnOk};
ghost use Rattle.{disk_io.specs.{Disk.{Honestly, bytes_in}, Runs.{ChangesNothing, HasCause}}, echo_filed.specs.Filed.Filed};
ghost use Rattle.{echo_filed.specs.declared.stored.Version.TheVariants.Second, base_file.specs.{Base.{Base, is_known}, Pieces.BeginsWith}};
ghost use Rattle.{base_folder_store.specs.Ahead.IsPartOf as IsReadPart, base_store.specs.Keys.{digested_key, entry}};
ghost use Rattle.station_bases.specs.{Entries.{AreEntriesOf, AreIndexed, CanFetch, CanLookUp, HoldEntries, entry_digest}, InFile.RepresentsInFile};
ghost use Rattle.station_bases.specs.EntryOpening.{AreJudged, HasJudged, IsPartOf, IsSoundIn, StaysIndexed};

use crate::entries::{Entries, HEAD};
use base_file::{Head, MessageRoom, Next, judge_next, parse_head};
use base_folder_store::ReadAhead;
use base_store::{Chains, SipDigest, StoreError, digest_of_key, entry};
use cmd_status::MessageProgress;
use disk_io::{Disk, DiskError, fill_with_part};
use echo_filed::{Key, Version};
use std::alloc::{AllocError, Global};

/// How many bytes are read at once, and how many if a message has more.
const PIECE: usize = 262_144;

const LARGE: usize = 33_554_432;

/// Some bytes of a file, from a place on, and room for a message.
#[derive(Drop)]
pub struct Piece {
    begins: usize,
    bytes: Vec<u8>,
    room: MessageRoom,
}

impl Piece {
    // No bytes.
    fn new(alloc: Global) -> Piece {
        Piece {
            begins: 0,
            bytes: Vec::new(alloc),
            room: MessageRoom::new(alloc),
        }
    }

    // Takes so many bytes from a place on, or those up to the end of the file. After a fault it has no bytes.
    fn fill<D: Disk>(
        &mut self,
        disk: &mut D,
        path: &[u8],
        at: usize,
        most: usize,
        len: usize,
    ) -> Result<(), DiskError>
        requires there { Honestly (D.state disk.old) (IsSome ((D.state disk.old).seen path.now)) }
        requires long { Honestly (D.state disk.old) (len ≤ length (bytes_in ((D.state disk.old).seen path.now))) }
        ensures part { Honestly (D.state disk.new) (IsPartOf (bytes_in ((D.state disk.old).seen path.now)) self.new) }
        ensures begins { self.new.begins ≡ min at len }
        ensures quiet { ChangesNothing (D.state disk.old) (D.state disk.new) }
        ensures cause { HasCause (D.failures disk.old) (D.failures disk.new) result }
    {
        self.begins = at.min(len);
        let end = self.begins + most.min(len - self.begins);
        match fill_with_part(disk, path, self.begins, end, &mut self.bytes) {
            Ok(()) => Ok(()),
            Err(fault) => {
                self.bytes.clear();
                Err(fault)
            }
        }
    }
}

/// A message that no rule refuses by itself: its key, how many bytes it has, and whether a scan changes its form.
#[derive(Drop)]
pub struct Sound {
    key: Key,
    size: usize,
    short: bool,
}

// The message at this place of the file, if it is sound and whole in the piece.
fn sound_in(
    piece: &mut Piece,
    head: Head,
    place: usize,
    at: usize,
) -> Result<Option<Sound>, AllocError>
    requires { head.version ≡ Second }
    ensures part { (file : List ℕ) → IsPartOf file piece.old → IsPartOf file piece.new }
    ensures sound { (file : List ℕ) → IsPartOf file piece.old
        → IfOk result (λ found. IfSome found (λ sound. IsSoundIn head.cursor place (drop at file) sound.key sound.size sound.short)) }
{
    if at < piece.begins || at - piece.begins > piece.bytes.len() {
        return Ok(None);
    }
    let bytes = &piece.bytes[at - piece.begins..];
    match judge_next(&mut piece.room, head, place, bytes)? {
        Next::Sound { key, size, short } => Ok(Some(Sound { key, size, short })),
        _ => Ok(None),
    }
}

// Reads so many bytes from the message on, which is at this place of the file, and judges it.
fn read_sound<D: Disk>(
    disk: &mut D,
    path: &[u8],
    head: Head,
    at: (usize, usize),
    most: usize,
    piece: &mut Piece,
) -> Result<Option<Sound>, DiskError>
    requires there { Honestly (D.state disk.old) (IsSome ((D.state disk.old).seen path.now)) }
    requires second { head.version ≡ Second }
    requires part { Honestly (D.state disk.old) (IsPartOf (bytes_in ((D.state disk.old).seen path.now)) piece.old) }
    ensures part { Honestly (D.state disk.new) (IsPartOf (bytes_in ((D.state disk.old).seen path.now)) piece.new) }
    ensures sound { Honestly (D.state disk.new) (IfOk result (λ found. IfSome found (λ sound.
        IsSoundIn head.cursor at.0 (drop at.1 (bytes_in ((D.state disk.old).seen path.now))) sound.key sound.size sound.short))) }
    ensures quiet { ChangesNothing (D.state disk.old) (D.state disk.new) }
    ensures cause { HasCause (D.failures disk.old) (D.failures disk.new) result }
{
    let len = disk.len(path)?;
    piece.fill(disk, path, at.1, most, len)?;
    let sound = sound_in(piece, head, at.0, at.1)?;
    Ok(sound)
}

// The message at this place of the file, if it is sound. If the piece ends before it, another one is read.
fn next_sound<D: Disk>(
    disk: &mut D,
    path: &[u8],
    head: Head,
    place: usize,
    at: usize,
    piece: &mut Piece,
) -> Result<Option<Sound>, DiskError>
    requires there { Honestly (D.state disk.old) (IsSome ((D.state disk.old).seen path.now)) }
    requires second { head.version ≡ Second }
    requires part { Honestly (D.state disk.old) (IsPartOf (bytes_in ((D.state disk.old).seen path.now)) piece.old) }
    ensures part { Honestly (D.state disk.new) (IsPartOf (bytes_in ((D.state disk.old).seen path.now)) piece.new) }
    ensures sound { Honestly (D.state disk.new) (IfOk result (λ found. IfSome found (λ sound.
        IsSoundIn head.cursor place (drop at (bytes_in ((D.state disk.old).seen path.now))) sound.key sound.size sound.short))) }
    ensures quiet { ChangesNothing (D.state disk.old) (D.state disk.new) }
    ensures cause { HasCause (D.failures disk.old) (D.failures disk.new) result }
{
    if let Some(sound) = sound_in(piece, head, place, at)? {
        return Ok(Some(sound));
    }
    if let Some(sound) = read_sound(disk, path, head, (place, at), PIECE, piece)? {
        return Ok(Some(sound));
    }
    read_sound(disk, path, head, (place, at), LARGE, piece)
}

// Whether a message at this place waits for a scan that changes its form.
fn is_odd(short: bool, place: usize, cursor: u32) -> bool
    ensures { result ≡ (not (nat_lt place cursor) && short) }
{
    place >= cursor as usize && short
}

impl Entries {
    // No message of a base file with this head.
    fn new(alloc: Global, digest: SipDigest, cursor: u32) -> Entries
        ensures cursor { result.cursor ≡ cursor }
        ensures end { result.end ≡ 16 }
        ensures keys { result.keys.items ≡ [] }
        ensures waiting { result.waiting.items ≡ [] }
        ensures indexed { AreIndexed result }
        ensures ahead { (file : List ℕ) → IsReadPart file result.ahead }
    {
        Entries {
            digest,
            cursor: cursor as usize,
            end: HEAD,
            odd: false,
            waiting: Vec::new(alloc),
            keys: Vec::new(alloc),
            chains: Chains::new(alloc),
            message: None,
            ahead: ReadAhead::new(alloc),
            room: MessageRoom::new(alloc),
        }
    }

    // Adds the entry of a message of so many bytes, which is next in the file.
    fn append(&mut self, size: usize, digest: u64, odd: bool) -> Result<(), AllocError>
        requires { AreIndexed self.old }
        ensures indexed { AreIndexed self.new }
        ensures end { OnOk result (self.new.end ≡ self.old.end + size) }
        ensures keys { OnOk result (self.new.keys.items ≡ self.old.keys.items ++ entry (self.old.end - 16) digest) }
        ensures odd { OnOk result (self.new.odd ≡ (self.old.odd || odd)) }
        ensures same { self.new ≡ record self.old { end = self.new.end; keys = self.new.keys; odd = self.new.odd } }
        ensures as_before { OnErr result (self.new.end ≡ self.old.end) }
    {
        let Some(end) = self.end.checked_add(size) else {
            return Err(AllocError);
        };
        let entry = entry((self.end - HEAD) as u64, digest);
        self.keys.extend_from_slice(&entry)?;
        self.end = end;
        self.odd = self.odd || odd;
        Ok(())
    }

    // The digest of the key, unless a message has the key, or is damaged.
    fn digest_if_new<D: Disk>(
        &mut self,
        alloc: Global,
        disk: &mut D,
        path: &[u8],
        key: &Key,
    ) -> Result<Option<u64>, DiskError>
        requires { CanLookUp (D.state disk.old) path.now self.old }
        ensures new { Honestly (D.state disk.new) ((base : List Filed) (cursor : ℕ) → AreEntriesOf (bytes_in ((D.state disk.old).seen path.now)) self.old base cursor
            → IfOk result (λ found. IfSome found (λ digest. is_known base key.now ≡ false))) }
        ensures digest { IfOk result (λ found. IfSome found (λ digest. digest ≡ entry_digest self.old (digested_key key.now))) }
        ensures same { self.new ≡ record self.old { chains = self.new.chains } }
        ensures indexed { AreIndexed self.new }
        ensures quiet { ChangesNothing (D.state disk.old) (D.state disk.new) }
        ensures cause { HasCause (D.failures disk.old) (D.failures disk.new) result }
    {
        let digest = digest_of_key(alloc, &self.digest, key)?;
        match self.find(alloc, disk, path, key, digest) {
            Ok(false) => Ok(Some(digest)),
            Err(StoreError::Memory) => Err(DiskError::Memory),
            Err(StoreError::Device) => Err(DiskError::Device),
            _ => Ok(None),
        }
    }

    // Adds the entry of the next message of the file, if it is sound and new, and answers whether it did.
    fn take_next<D: Disk>(
        &mut self,
        alloc: Global,
        disk: &mut D,
        path: &[u8],
        head: Head,
        piece: &mut Piece,
    ) -> Result<bool, DiskError>
        requires can { CanLookUp (D.state disk.old) path.now self.old }
        requires so_far { HasJudged (D.state disk.old) path.now head piece.old self.old }
        requires more { length self.old.keys.items / 16 < head.number }
        ensures judged { Honestly (D.state disk.new) (IfOk result (λ taken. taken ≡ true → AreJudged (bytes_in ((D.state disk.old).seen path.now)) head self.new)) }
        ensures part { Honestly (D.state disk.new) (OnOk result (IsPartOf (bytes_in ((D.state disk.old).seen path.now)) piece.new)) }
        ensures count { IfOk result (λ taken. taken ≡ true → length self.new.keys.items / 16 ≡ length self.old.keys.items / 16 + 1) }
        ensures keeps { StaysIndexed self.old self.new }
        ensures quiet { ChangesNothing (D.state disk.old) (D.state disk.new) }
        ensures cause { HasCause (D.failures disk.old) (D.failures disk.new) result }
    {
        let place = self.count();
        let Some(sound) = next_sound(disk, path, head, place, self.end, piece)? else {
            return Ok(false);
        };
        let Some(digest) = self.digest_if_new(alloc, disk, path, &sound.key)? else {
            return Ok(false);
        };
        let odd = is_odd(sound.short, place, head.cursor);
        self.append(sound.size, digest, odd)?;
        Ok(true)
    }

    // Adds the entries of all messages of the file, if they are sound and new, and answers whether they are.
    fn take_all<D: Disk, T: MessageProgress>(
        &mut self,
        alloc: Global,
        disk: &mut D,
        path: &[u8],
        head: Head,
        piece: &mut Piece,
        watch: &T,
    ) -> Result<bool, DiskError>
        requires can { CanLookUp (D.state disk.old) path.now self.old }
        requires so_far { HasJudged (D.state disk.old) path.now head piece.old self.old }
        ensures judged { Honestly (D.state disk.new) (IfOk result (λ all. all ≡ true → AreJudged (bytes_in ((D.state disk.old).seen path.now)) head self.new)) }
        ensures enough { IfOk result (λ all. all ≡ true → head.number ≤ length self.new.keys.items / 16) }
        ensures keeps { StaysIndexed self.old self.new }
        ensures quiet { ChangesNothing (D.state disk.old) (D.state disk.new) }
        ensures cause { HasCause (D.failures disk.old) (D.failures disk.new) result }
    {
        let number = head.number as usize;
        'messages: while self.count() < number {
            let began = piece.begins;
            if !self.take_next(alloc, disk, path, head, piece)? {
                return Ok(false);
            }
            if piece.begins != began {
                watch.tell(self.count(), number);
            }
        }
        Ok(true)
    }
}

// The head in front of a base file of version 2.
fn second_head(bytes: &[u8]) -> Option<Head>
    ensures begins { IfSome result (λ head. BeginsWith head bytes.now) }
    ensures second { IfSome result (λ head. head.version ≡ Second) }
{
    let Ok(head) = parse_head(bytes) else {
        return None;
    };
    match head.version {
        Version::Second => Some(head),
        Version::First => None,
    }
}

/// The entries of a faultless base file of version 2; nothing for another file. Its reading is watched.
pub(crate) fn open_entries<D: Disk, T: MessageProgress>(
    alloc: Global,
    disk: &mut D,
    path: &[u8],
    digest: SipDigest,
    watch: &T,
) -> Result<Option<Entries>, DiskError>
    requires there { Honestly (D.state disk.old) (IsSome ((D.state disk.old).seen path.now)) }
    ensures can { IfOk result (λ found. IfSome found (CanFetch (D.state disk.new) path.now)) }
    ensures held { Honestly (D.state disk.new) (IfOk result (λ found. IfSome found (λ entries. (base : Base) × RepresentsInFile path.now base (D.state disk.old).seen
        × HoldEntries (bytes_in ((D.state disk.old).seen path.now)) entries base))) }
    ensures quiet { ChangesNothing (D.state disk.old) (D.state disk.new) }
    ensures cause { HasCause (D.failures disk.old) (D.failures disk.new) result }
{
    let len = disk.len(path)?;
    let mut piece = Piece::new(alloc);
    piece.fill(disk, path, 0, PIECE, len)?;
    let Some(head) = second_head(&piece.bytes) else {
        return Ok(None);
    };
    let mut entries = Entries::new(alloc, digest, head.cursor);
    if !entries.take_all(alloc, disk, path, head, &mut piece, watch)? {
        return Ok(None);
    }
    Ok(Some(entries))
}
