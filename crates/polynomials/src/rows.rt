// Steps on rows of codes.
ghost use Rattle.std.specs.Prelude.{◌≡◌, ℕ, ◌+◌, ◌<◌, ◌≤◌, length, MatchOption, MatchResult, slice_index};
ghost use Rattle.polynomials.specs.Rows.{Inside, FirstForeign, Sized};
ghost use Rattle.polynomials.specs.Steps.{ForeignRow, Lessened};

use crate::faults::RowFault;
use coefficients::kind::Coefficients;

// The place and the code of the first that is no element.
pub fn first_foreign<K: Coefficients>(kind: &K, codes: &[u64]) -> Option<(usize, u64)>
    ensures { MatchOption result (Inside (K.arithmetic kind.now) codes.now) (λ p. FirstForeign (K.arithmetic kind.now) codes.now p.0 p.1) }
{
    let place = codes.iter().position(|code| !kind.contains(*code))?;
    Some((place, codes[place]))
}

// Whether every code of a row is an element: the first that is not is refused, under the row's number.
pub fn check_codes<K: Coefficients>(kind: &K, codes: &[u64], row: u64) -> Result<(), RowFault>
    ensures { MatchResult result (λ _. Inside (K.arithmetic kind.now) codes.now) (λ e. ForeignRow (K.arithmetic kind.now) codes.now row e) }
{
    match first_foreign(kind, codes) {
        Some((place, code)) => Err(RowFault::Foreign { row, place, code }),
        None => Ok(()),
    }
}

// The size of a row: one more than the place of the last code that is not zero, or 0.
pub fn size<K: Coefficients>(kind: &K, row: &[u64]) -> usize
    ensures { Sized (K.arithmetic kind.now) row.now result }
{
    let zero = kind.zero();
    // By place: over the codes themselves the loop can take half as long again on long rows.
    (0..row.len())
        .rposition(|place| row[place] != zero)
        .map_or(0, |last| last + 1)
}

// Writes zero into each place.
pub fn clear<K: Coefficients>(kind: &K, row: &mut [u64])
    ensures { (i : ℕ) → i < length row.old → slice_index row.new i ≡ (K.arithmetic kind.now).zero }
{
    row.fill(kind.zero());
}

// Takes `by` times `row`, moved up by `shift`, from `acc`.
pub fn lessen<K: Coefficients>(kind: &K, acc: &mut [u64], shift: usize, by: u64, row: &[u64])
    requires { shift + length row.now ≤ length acc.old }
    ensures { Lessened (K.arithmetic kind.now) acc.old acc.new shift by row.now (length row.now) }
{
    // Written by place: after a loop over a zipped or counted `iter_mut` a proof knows at most the length of what was written.
    for (j, code) in row.iter().enumerate() {
        acc[shift + j] = kind.sub(acc[shift + j], kind.mul(by, *code));
    }
}

// Multiplies each code.
pub fn scale<K: Coefficients>(kind: &K, row: &mut [u64], by: u64)
    ensures { (i : ℕ) → i < length row.old → slice_index row.new i ≡ (K.arithmetic kind.now).product by (slice_index row.old i) }
{
    for code in row.iter_mut() {
        *code = kind.mul(by, *code);
    }
}
