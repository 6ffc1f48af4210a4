// Counts and figures of a sheet: a figure is 8 bytes, two's complement, low byte first.
ghost use Rattle.std.specs.Prelude.{◌≡◌, ◌+◌, ◌<◌, ◌≤◌, MatchOption, length};
ghost use Rattle.sheet.specs.Bytes.{count_at, figure_at};

// The figure at a place, if the sheet has all its bytes.
pub fn figure_in(sheet: &[u8], at: usize) -> Option<i64>
    ensures { MatchOption result (length sheet.now < at + 8) (λ v. (at + 8 ≤ length sheet.now) × (v ≡ figure_at sheet.now at)) }
{
    let bytes = sheet.get(at..)?.first_chunk::<8>()?;
    Some(i64::from_le_bytes(*bytes))
}

// The count at a place; 0 past the end.
pub fn count_at(sheet: &[u8], at: usize) -> u8
    ensures { result ≡ count_at sheet.now at }
{
    sheet.get(at).copied().unwrap_or(0)
}

// The figure at a place; 0 where the sheet ends before it does.
#[tactic(auto, using(crate::proofs::Refused::tests), unfolding(crate::specs::Bytes::figure_at))]
pub fn figure_at(sheet: &[u8], at: usize) -> i64
    ensures { result ≡ figure_at sheet.now at }
{
    figure_in(sheet, at).unwrap_or(0)
}
