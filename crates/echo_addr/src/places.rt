//! Offsets and counts as u64, never above its greatest value.

ghost use Rattle.std.specs.Prelude.{◌≡◌, ◌==◌, position, count_by};

pub(crate) fn count(bytes: &[u8], wanted: u8) -> usize
    ensures { result ≡ count_by (λ b. b == wanted) bytes.now }
{
    bytes.iter().filter(|b| **b == wanted).count()
}

pub(crate) fn place(bytes: &[u8], wanted: u8) -> Option<usize>
    ensures { result ≡ position (λ b. b == wanted) bytes.now }
{
    bytes.iter().position(|b| *b == wanted)
}
