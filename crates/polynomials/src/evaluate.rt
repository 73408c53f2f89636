// The value of a row at a point, and the image of a table where y is a point.
ghost use Rattle.std.specs.Prelude.{◌≡◌, length};
ghost use Rattle.polynomials.specs.Powers.{Powers};
ghost use Rattle.polynomials.specs.Steps.{Valued, Imaged};
ghost use Rattle.polynomials.specs.Calls.{Evaluation, Imaging};

use crate::faults::RowFault;
use crate::rows::check_codes;
use coefficients::kind::Coefficients;

// The value of `row` at `point`.
pub fn evaluate<K: Coefficients>(kind: &K, row: &[u64], point: u64) -> Result<u64, RowFault>
    ensures { Evaluation (K.arithmetic kind.now) row.now point result }
{
    check_codes(kind, row, 1)?;
    check_codes(kind, &[point], 2)?;
    Ok(horner(kind, row, point))
}

// Sets y to `point` in a table of 256 codes, and writes the coefficients in x into the 16 codes of `row`.
pub fn image<K: Coefficients>(
    kind: &K,
    table: &[u64],
    point: u64,
    row: &mut [u64],
) -> Result<(), RowFault>
    ensures { Imaging (K.arithmetic kind.now) table.now point row.old row.new result }
{
    if table.len() != 256 {
        return Err(RowFault::Length {
            row: 1,
            length: table.len(),
        });
    }
    if row.len() != 16 {
        return Err(RowFault::Length {
            row: 3,
            length: row.len(),
        });
    }
    check_codes(kind, table, 1)?;
    check_codes(kind, &[point], 2)?;
    image_row(kind, table, point, row);
    Ok(())
}

// The value of a row, from the highest power down.
pub fn horner<K: Coefficients>(kind: &K, row: &[u64], point: u64) -> u64
    ensures { Valued (K.arithmetic kind.now) row.now point result }
{
    row.iter().rfold(kind.zero(), |value, code| {
        kind.add(*code, kind.mul(point, value))
    })
}

// Writes 1, x, x², .. for the point x into `powers`, as far as it goes.
pub fn fill_powers<K: Coefficients>(kind: &K, point: u64, powers: &mut [u64])
    ensures { Powers (K.arithmetic kind.now) point powers.new }
{
    let mut power = kind.one();
    for slot in powers.iter_mut() {
        *slot = power;
        power = kind.mul(point, power);
    }
}

// The image of a table, row by row. Here and in the steps on tables lengths of slices stand in clauses: these are functions over slices of codes, a
// form of the project (docs/DECISIONS.md, Forms).
pub fn image_row<K: Coefficients>(kind: &K, table: &[u64], point: u64, row: &mut [u64])
    requires table { length table.now ≡ 256 }
    requires row { length row.old ≡ 16 }
    ensures { Imaged (K.arithmetic kind.now) table.now point row.new }
{
    // Written by place: after a loop over a zipped or counted `iter_mut` a proof knows at most the length of what was written.
    for (i, codes) in table.chunks_exact(16).enumerate() {
        row[i] = horner(kind, codes, point);
    }
}
