// The content of a polynomial in x and y, and what is left without it.
ghost use Rattle.std.specs.Prelude.{◌≡◌, ℕ, ◌*◌, ◌≤◌, List, length};
ghost use Rattle.polynomials.specs.Steps.{Common};
ghost use Rattle.tables.specs.Content.{Gathering, Even, EvenRows, Parting};

use crate::faults::DivisionFault;
use crate::rows::{Rows, row_start};
use coefficients::kind::{Coefficients, ReciprocalFault};
use polynomials::divide::divide_row;
use polynomials::gcd::gcd_row;
use polynomials::rows::{clear, size};

// Leaves the greatest common divisor of `content` and a row in `content`, and answers its size.
fn gather_row<K: Coefficients>(
    kind: &K,
    row: &[u64],
    content: &mut [u64],
) -> Result<usize, ReciprocalFault>
    requires narrow { length row.now ≤ 32 }
    requires content { length content.old ≡ length row.now }
    ensures { (e : List ℕ) × Common (K.arithmetic kind.now) content.old row.now content.new e result }
{
    // No call allocates, so the room is an array.
    let mut room = [0u64; 32];
    let rest = &mut room[..row.len()];
    rest.copy_from_slice(row);
    gcd_row(kind, content, rest)
}

// Divides a row by `by`, which must come out even.
pub fn divide_even<K: Coefficients>(
    kind: &K,
    row: &[u64],
    by: &[u64],
    quotient: &mut [u64],
) -> Result<(), DivisionFault>
    requires narrow { length row.now ≤ 32 }
    requires quotient { length quotient.old ≡ length row.now }
    ensures { Even (K.arithmetic kind.now) row.now by.now quotient.old quotient.new result }
{
    // No call allocates, so the room is an array.
    let mut room = [0u64; 32];
    let rest = &mut room[..row.len()];
    rest.copy_from_slice(row);
    divide_row(kind, rest, by, quotient)?;
    if size(kind, rest) == 0 {
        Ok(())
    } else {
        Err(DivisionFault::Uneven)
    }
}

// Divides each row by `by`, which must come out even.
pub fn divide_rows<K: Coefficients>(
    kind: &K,
    rows: &Rows<'_>,
    by: &[u64],
    quotient: &mut [u64],
) -> Result<(), DivisionFault>
    requires by { length by.now ≡ rows.now.width }
    requires quotient { length quotient.old ≡ length rows.now.codes.now }
    ensures { EvenRows (K.arithmetic kind.now) rows.now.width rows.now.codes.now by.now quotient.new result }
{
    clear(kind, quotient);
    // The quotient's rows by number: `chunks_exact_mut` wants a width above 0, and rows may have width 0.
    for (i, row) in rows.each().iter().enumerate() {
        let start = row_start(rows.width, i);
        let end = start + rows.width;
        divide_even(kind, row, by, &mut quotient[start..end])?;
    }
    Ok(())
}

// Leaves the monic greatest common divisor of 16 rows of `width` codes in `content`, zero where they are all zero, and answers its size.
// A function over a slice of codes, beside the method of a view of it (docs/DECISIONS.md, Forms); so is the next.
pub fn content<K: Coefficients>(
    kind: &K,
    rows: &[u64],
    width: usize,
    content: &mut [u64],
) -> Result<usize, ReciprocalFault>
    requires sixteen { length rows.now ≡ 16 * width }
    requires narrow { width ≤ 32 }
    requires content { length content.old ≡ width }
    ensures { Gathering (K.arithmetic kind.now) width rows.now content.new result }
{
    Rows::new(rows, width).content(kind, content)
}

// Leaves the content of 16 rows of `width` codes and the rows divided by it, and answers the content's size. Rows that are all zero are refused.
pub fn take_content<K: Coefficients>(
    kind: &K,
    rows: &[u64],
    width: usize,
    content: &mut [u64],
    part: &mut [u64],
) -> Result<usize, DivisionFault>
    requires sixteen { length rows.now ≡ 16 * width }
    requires narrow { width ≤ 32 }
    requires content { length content.old ≡ width }
    requires part { length part.old ≡ length rows.now }
    ensures { Parting (K.arithmetic kind.now) width rows.now part.old content.new part.new result }
{
    Rows::new(rows, width).take_content(kind, content, part)
}

impl Rows<'_> {
    // Leaves the monic greatest common divisor of the rows in `content`, zero where they are all zero, and answers its size.
    pub fn content<K: Coefficients>(
        &self,
        kind: &K,
        content: &mut [u64],
    ) -> Result<usize, ReciprocalFault>
        requires { length content.old ≡ self.now.width }
        ensures { Gathering (K.arithmetic kind.now) self.now.width self.now.codes.now content.new result }
    {
        clear(kind, content);
        let mut n = 0;
        // By number, so that no row is made ready that is not reached.
        for i in 0..16usize {
            n = gather_row(kind, self.row(i), content)?;
            if n == 1 {
                return Ok(n);
            }
        }
        Ok(n)
    }

    // Leaves the content and the rows divided by it, and answers the content's size. Rows that are all zero are refused.
    pub fn take_content<K: Coefficients>(
        &self,
        kind: &K,
        content: &mut [u64],
        part: &mut [u64],
    ) -> Result<usize, DivisionFault>
        requires content { length content.old ≡ self.now.width }
        requires part { length part.old ≡ length self.now.codes.now }
        ensures { Parting (K.arithmetic kind.now) self.now.width self.now.codes.now part.old content.new part.new result }
    {
        let n = self.content(kind, content)?;
        divide_rows(kind, self, content, part)?;
        Ok(n)
    }
}
