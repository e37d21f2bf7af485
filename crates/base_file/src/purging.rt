//! A purge replaces messages by their stubs, beginning after those that are known to be stubs.
ghost use Rattle.std.specs.Prelude.{◌≡◌, ◌<◌, ◌≤◌, take, true, false, slice_get, slice_set, IfOk, IfSome};
ghost use Rattle.std.specs.List.{AllByRecursion};
ghost use Rattle.echo_filed.specs.Stubs.{is_stub, stub_of};
ghost use Rattle.base_file.specs.Purging.{left_to, lines_left_in};
ghost use Rattle.indexmap.specs.IndexMap.{index_map_len, keys, values};

use crate::range::PurgeRange;
use echo_filed::{Filed, Key, leave, stub_lines};
use echo_text::Lines;
use indexmap::IndexMap;
use std::alloc::{AllocError, Global};
use std::hash::BuildHasher;

/// The lines that a purge of this range leaves of each message before `end` that it changes, in order. Those before
/// `start` are stubs.
pub(crate) fn lines_left<S: BuildHasher>(
    alloc: Global,
    entries: &IndexMap<Key, Filed, S>,
    range: &PurgeRange,
    start: usize,
    end: usize,
) -> Result<Vec<Lines>, AllocError>
    requires within { end ≤ index_map_len entries.now }
    requires order { start ≤ end }
    requires stubs { AllByRecursion (λ m. is_stub m ≡ true) (take start (values entries.now)) }
    ensures { IfOk result (λ lines. lines.items ≡ lines_left_in range.now.area (take end (values entries.now))) }
{
    let mut all = Vec::new(alloc);
    'messages: for i in start..end {
        let message = &entries[i];
        if range.changes(message) {
            all.push(stub_lines(alloc, message)?)?;
        }
    }
    Ok(all)
}

fn put_stub<S: BuildHasher>(
    alloc: Global,
    entries: &mut IndexMap<Key, Filed, S>,
    i: usize,
    lines: Lines,
)
    requires within { i < index_map_len entries.old }
    requires changed { IfSome (slice_get (values entries.old) i) (λ m. is_stub m ≡ false) }
    requires own { IfSome (slice_get (values entries.old) i) (λ m. lines ≡ (stub_of m).echo.kept) }
    ensures keys { keys entries.new ≡ keys entries.old }
    ensures values { IfSome (slice_get (values entries.old) i) (λ m. values entries.new ≡ slice_set (values entries.old) i (stub_of m)) }
{
    leave(alloc, &mut entries[i], lines);
}

/// Replaces the messages before `end` that a purge of this range changes by stubs with these lines. Those before `start`
/// are stubs already.
pub(crate) fn put_stubs<S: BuildHasher>(
    alloc: Global,
    entries: &mut IndexMap<Key, Filed, S>,
    range: &PurgeRange,
    start: usize,
    end: usize,
    lines: Vec<Lines>,
)
    requires within { end ≤ index_map_len entries.old }
    requires order { start ≤ end }
    requires stubs { AllByRecursion (λ m. is_stub m ≡ true) (take start (values entries.old)) }
    requires own { lines.items ≡ lines_left_in range.now.area (take end (values entries.old)) }
    ensures keys { keys entries.new ≡ keys entries.old }
    ensures values { values entries.new ≡ left_to range.now.area end (values entries.old) }
{
    let mut lines = lines;
    'places: for i in (start..end).rev() {
        if range.changes(&entries[i]) {
            if let Some(own) = lines.pop() {
                put_stub(alloc, entries, i, own);
            }
        }
    }
}
