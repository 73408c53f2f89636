// 16 rows of `width` codes times a polynomial in y, and times the constant that makes them monic.
ghost use Rattle.std.specs.Prelude.{◌≡◌, ◌*◌, ◌≤◌, length};
ghost use Rattle.tables.specs.Scale.{ManyTimes, MonicRows};

use crate::rows::{Rows, row_start};
use coefficients::kind::{Coefficients, ReciprocalFault};
use polynomials::divide::Divisor;
use polynomials::product::{NoRoom, multiply_row};
use polynomials::rows::{clear, scale};

// Writes each row times `by` into `product`, if there is room for all of them.
pub fn multiply_rows<K: Coefficients>(
    kind: &K,
    rows: &Rows<'_>,
    by: &[u64],
    product: &mut [u64],
) -> Result<(), NoRoom>
    requires { length product.old ≡ length rows.now.codes.now }
    ensures { ManyTimes (K.arithmetic kind.now) rows.now.width rows.now.codes.now by.now product.new result }
{
    clear(kind, product);
    // The product's rows by number: `chunks_exact_mut` wants a width above 0, and rows may have width 0.
    for (i, row) in rows.each().iter().enumerate() {
        let start = row_start(rows.width, i);
        let end = start + rows.width;
        multiply_row(kind, by, row, &mut product[start..end])?;
    }
    Ok(())
}

// Makes the leading coefficient of the last row that is not zero one, and answers the size in x. Zero stays.
// Takes codes and a width, since a view of rows cannot be written.
pub fn make_monic_rows<K: Coefficients>(
    kind: &K,
    rows: &mut [u64],
    width: usize,
) -> Result<usize, ReciprocalFault>
    requires sixteen { length rows.old ≡ 16 * width }
    requires narrow { width ≤ 32 }
    ensures { MonicRows (K.arithmetic kind.now) width rows.old rows.new result }
{
    let view = Rows::new(rows, width);
    let n = view.size_x(kind);
    if n == 0 {
        return Ok(0);
    }
    let lead = view.row(n - 1);
    let inverse = Divisor::new(kind, lead)?.inverse();
    scale(kind, rows, inverse);
    Ok(n)
}
