// Newton's interpolation, 16 rows at once: from values at different points to polynomials in y.
ghost use Rattle.std.specs.Prelude.{◌≡◌, ◌*◌, ◌≤◌, length};
ghost use Rattle.tables.specs.Join.{Corrects, Correction, Grows, Joining};

use coefficients::kind::{Coefficients, ReciprocalFault};
use polynomials::evaluate::horner;
use polynomials::rows::{clear, lessen};

// A function over slices of codes, so that lengths stand in clauses (docs/DECISIONS.md, Forms).
// Joins the rows at different points: `rows` has 16 codes for each point, and `joined` 16 rows of 32 codes, which become the polynomials in y, of
// degree below the number of points, that have these codes for values.
pub fn join<K: Coefficients>(
    kind: &K,
    points: &[u64],
    rows: &[u64],
    joined: &mut [u64],
) -> Result<(), ReciprocalFault>
    requires points { length points.now ≤ 31 }
    requires rows { length rows.now ≡ 16 * length points.now }
    requires joined { length joined.old ≡ 512 }
    ensures { Joining (K.arithmetic kind.now) points.now rows.now joined.new result }
{
    clear(kind, joined);
    // The product of y - α over the points so far.
    let mut master = [kind.zero(); 32];
    master[0] = kind.one();
    for (point, values) in points.iter().zip(rows.chunks_exact(16)) {
        correct(kind, &master, *point, values, joined)?;
        grow(kind, &mut master, *point);
    }
    Ok(())
}

// Takes multiples of `master` from the 16 rows of `joined`, so that their values at `point` become the codes of `values`.
fn correct<K: Coefficients>(
    kind: &K,
    master: &[u64],
    point: u64,
    values: &[u64],
    joined: &mut [u64],
) -> Result<(), ReciprocalFault>
    requires master { length master.now ≡ 32 }
    requires values { length values.now ≡ 16 }
    requires joined { length joined.old ≡ 512 }
    ensures { Correction (K.arithmetic kind.now) master.now point values.now joined.old joined.new result }
{
    let inverse = kind.reciprocal(horner(kind, master, point))?;
    // Rows by number: after a loop over `chunks_exact_mut` a proof knows at most the length of what was written.
    for (i, value) in values.iter().enumerate() {
        let row = &mut joined[32 * i..32 * i + 32];
        correct_row(kind, master, point, inverse, *value, row);
    }
    Ok(())
}

// Takes a multiple of `master` from `row`, so that its value at `point` becomes `value`; `inverse` is the reciprocal of that of `master`.
fn correct_row<K: Coefficients>(
    kind: &K,
    master: &[u64],
    point: u64,
    inverse: u64,
    value: u64,
    row: &mut [u64],
)
    requires master { length master.now ≡ 32 }
    requires row { length row.old ≡ 32 }
    ensures { Corrects (K.arithmetic kind.now) master.now point inverse value row.old row.new }
{
    let excess = kind.sub(horner(kind, row, point), value);
    lessen(kind, row, 0, kind.mul(excess, inverse), master);
}

// Multiplies `master` by y - `point`.
fn grow<K: Coefficients>(kind: &K, master: &mut [u64], point: u64)
    ensures { Grows (K.arithmetic kind.now) master.old point master.new }
{
    let mut below = kind.zero();
    for code in master.iter_mut() {
        let held = *code;
        *code = kind.sub(below, kind.mul(point, held));
        below = held;
    }
}
