// Exact division of 16 rows of `width` codes by 16 others, as polynomials in x and y.
ghost use Rattle.std.specs.Prelude.{◌≡◌, ◌+◌, ◌*◌, ◌<◌, ◌≤◌, length};
ghost use Rattle.tables.specs.Degrees.{SizedX};
ghost use Rattle.tables.specs.Exact.{Taking, CutTop, DividedTable};

use crate::content::divide_even;
use crate::faults::DivisionFault;
use crate::rows::{Rows, row_start};
use crate::scale::multiply_rows;
use coefficients::kind::{Coefficients, ReciprocalFault};
use polynomials::product::NoRoom;
use polynomials::rows::{clear, lessen};

// Rows that are not all zero, and their size in x.
#[derive(Drop)]
struct Divisor<'a, K: Coefficients> {
    kind: &'a K,
    rows: Rows<'a>,
    count: usize,
    ghost some: { 0 < count },
    ghost sized: { SizedX (K.arithmetic kind.now) rows.width rows.codes.now count },
}

impl<K: Coefficients> Divisor<'_, K> {
    // Takes x^`shift` times `factor` times the divisor from `rest`, if the product fits.
    fn take_multiple(&self, rest: &mut [u64], shift: usize, factor: &[u64]) -> Result<(), NoRoom>
        requires rest { length rest.old ≡ 16 * self.now.rows.width }
        requires within { shift + self.now.count ≤ 16 }
        ensures { Taking (K.arithmetic self.now.kind.now) self.now.rows.width rest.old self.now.rows.codes.now shift factor.now rest.new result }
    {
        // No call allocates, so the room is an array.
        let mut room = [0u64; 512];
        let product = &mut room[..self.rows.codes.len()];
        multiply_rows(self.kind, &self.rows, factor, product)?;
        let start = row_start(self.rows.width, shift);
        let last = row_start(self.rows.width, self.count - 1);
        let end = last + self.rows.width;
        lessen(self.kind, rest, start, self.kind.one(), &product[..end]);
        Ok(())
    }

    // Divides the row `shift + count - 1` of `rest` by the leading row, and takes that multiple of the divisor from `rest`.
    fn cut_top(
        &self,
        rest: &mut [u64],
        shift: usize,
        quotient: &mut [u64],
    ) -> Result<(), DivisionFault>
        requires rest { length rest.old ≡ 16 * self.now.rows.width }
        requires quotient { length quotient.old ≡ 16 * self.now.rows.width }
        requires within { shift + self.now.count ≤ 16 }
        ensures { CutTop (K.arithmetic self.now.kind.now) self.now.rows.width rest.old self.now.rows.codes.now shift self.now.count quotient.old rest.new quotient.new result }
    {
        let top = Rows::new(rest, self.rows.width).row(shift + self.count - 1);
        let lead = self.rows.row(self.count - 1);
        let start = row_start(self.rows.width, shift);
        let end = start + self.rows.width;
        divide_even(self.kind, top, lead, &mut quotient[start..end])?;
        self.take_multiple(rest, shift, &quotient[start..end])?;
        Ok(())
    }
}

// Divides `rest` by `by`, which must come out even, and leaves what is left of it.
pub fn divide_table<K: Coefficients>(
    kind: &K,
    rest: &mut [u64],
    by: &Rows<'_>,
    quotient: &mut [u64],
) -> Result<(), DivisionFault>
    requires rest { length rest.old ≡ 16 * by.now.width }
    requires quotient { length quotient.old ≡ 16 * by.now.width }
    ensures { DividedTable (K.arithmetic kind.now) by.now.width rest.old by.now.codes.now rest.new quotient.new result }
{
    clear(kind, quotient);
    let count = by.size_x(kind);
    if count == 0 {
        return Err(DivisionFault::Reciprocal(ReciprocalFault::NoReciprocal(kind.zero())));
    }
    let divisor = Divisor {
        kind,
        rows: *by,
        count,
    };
    for shift in (0..17 - count).rev() {
        divisor.cut_top(rest, shift, quotient)?;
    }
    if Rows::new(rest, by.width).size_x(kind) == 0 {
        Ok(())
    } else {
        Err(DivisionFault::Uneven)
    }
}
