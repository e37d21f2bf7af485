//! The log of commits: its records, and the last of them.
ghost use Rattle.std.specs.Prelude.{◌≡◌, ◌≤◌, ◌+◌, ◌↔◌, length, take, drop, slice_index, IsTrue, MatchBool};
ghost use Rattle.std.specs.Int.{w64, from_le_bytes};
ghost use Rattle.base_log.specs.{Log.EndsHere, Log.IsShutAt, Log.mark_by, Log.recorded_by, Reading.ReadsAll};

/// The owner of a base folder, and the halves of its digests' key, not judged. All are 0 before the first commit.
#[derive(Clone, Copy, Debug, PartialEq, Eq)]
pub struct FolderIdentity {
    pub owner: u64,
    pub first: u64,
    pub second: u64,
}

/// The contents of a record: how many bytes of the messages and of their keys count, the cursor, the number of the
/// files that hold them, and the mark.
#[derive(Clone, Copy, Debug, PartialEq, Eq)]
pub struct CommitRecord {
    pub messages: usize,
    pub keys: usize,
    pub cursor: u64,
    pub number: u8,
    pub mark: FolderIdentity,
}

/// The end of the log's records, and the contents of the last of them.
#[derive(Clone, Copy, Debug, PartialEq, Eq)]
pub struct End {
    pub records_len: usize,
    pub recorded: CommitRecord,
}

/// The log of a base folder, and the end of its records.
#[derive(Drop)]
pub struct Log {
    pub bytes: Vec<u8>,
    pub end: End,
}

impl Log {
    /// Whether a closed gate follows the records.
    pub fn is_shut(&self) -> bool
        ensures { IsTrue result ↔ IsShutAt self.now.end.records_len self.now.bytes.items }
    {
        self.end.records_len < self.bytes.len() && self.bytes[self.end.records_len] != 1
    }
}

fn has_record(bytes: &[u8], at: usize) -> bool
    requires { at ≤ length bytes.now }
    ensures { MatchBool result ((50 ≤ length (drop at bytes.now)) × (slice_index bytes.now at ≡ 1)) (EndsHere (drop at bytes.now)) }
{
    bytes.len() - at >= 50 && bytes[at] == 1
}

fn number_at(bytes: &[u8], at: usize) -> u64
    requires { at + 8 ≤ length bytes.now }
    ensures { result ≡ from_le_bytes w64 (take 8 (drop at bytes.now)) }
{
    u64::from_le_bytes([
        bytes[at],
        bytes[at + 1],
        bytes[at + 2],
        bytes[at + 3],
        bytes[at + 4],
        bytes[at + 5],
        bytes[at + 6],
        bytes[at + 7],
    ])
}

fn mark_at(bytes: &[u8], at: usize) -> FolderIdentity
    requires { at + 24 ≤ length bytes.now }
    ensures { result ≡ mark_by (take 24 (drop at bytes.now)) }
{
    FolderIdentity {
        owner: number_at(bytes, at),
        first: number_at(bytes, at + 8),
        second: number_at(bytes, at + 16),
    }
}

fn recorded_at(bytes: &[u8], at: usize) -> CommitRecord
    requires { at + 49 ≤ length bytes.now }
    ensures { result ≡ recorded_by (take 49 (drop at bytes.now)) }
{
    CommitRecord {
        messages: number_at(bytes, at) as usize,
        keys: number_at(bytes, at + 8) as usize,
        cursor: number_at(bytes, at + 16),
        number: bytes[at + 24],
        mark: mark_at(bytes, at + 25),
    }
}

/// Reads a log to the end of its records.
pub(crate) fn last_record(bytes: &[u8]) -> End
    ensures reads { ReadsAll bytes.now result }
    ensures within { result.records_len ≤ length bytes.now }
{
    let mut end = End {
        records_len: 0,
        recorded: CommitRecord {
            messages: 0,
            keys: 0,
            cursor: 0,
            number: 0,
            mark: FolderIdentity {
                owner: 0,
                first: 0,
                second: 0,
            },
        },
    };
    'records: while has_record(bytes, end.records_len) {
        end = End {
            records_len: end.records_len + 50,
            recorded: recorded_at(bytes, end.records_len + 1),
        };
    }
    end
}
