// Division with remainder.
ghost use Rattle.std.specs.Prelude.{◌≡◌, ℕ, ◌+◌, ◌-◌, ◌≤◌, length, IfOk, IfErr, slice_index};
ghost use Rattle.polynomials.specs.Rows.{Sized};
ghost use Rattle.polynomials.specs.Steps.{Lessened, Inverts, Undivided, Divided, Division, Reduced, Reduction};
ghost use Rattle.polynomials.specs.Calls.{Dividing};

use crate::faults::RowFault;
use crate::rows::{check_codes, clear, lessen, size};
use coefficients::kind::{Coefficients, ReciprocalFault};

// Divides `rest` by `by`: leaves the remainder in `rest`, and writes the quotient, for which there has to be a row as long as `rest`.
pub fn divide<K: Coefficients>(
    kind: &K,
    rest: &mut [u64],
    by: &[u64],
    quotient: &mut [u64],
) -> Result<(), RowFault>
    ensures { Dividing (K.arithmetic kind.now) rest.old by.now quotient.old rest.new quotient.new result }
{
    if quotient.len() < rest.len() {
        return Err(RowFault::Length {
            row: 3,
            length: quotient.len(),
        });
    }
    check_codes(kind, rest, 1)?;
    check_codes(kind, by, 2)?;
    divide_row(kind, rest, by, quotient)?;
    Ok(())
}

// A row to divide by, with its size and the reciprocal of its leading code.
#[derive(Drop)]
pub struct Divisor<'a, K: Coefficients> {
    pub kind: &'a K,
    pub row: &'a [u64],
    pub count: usize,
    pub inverse: u64,
    ghost sized: { Sized (K.arithmetic kind.now) row.now count },
    ghost inverts: { Inverts (K.arithmetic kind.now) row.now count inverse },
}

impl<'a, K: Coefficients> Divisor<'a, K> {
    pub fn new(kind: &'a K, row: &'a [u64]) -> Result<Divisor<'a, K>, ReciprocalFault>
        ensures kind { IfOk result (λ d. d.kind.now ≡ kind.now) }
        ensures row { IfOk result (λ d. d.row.now ≡ row.now) }
        ensures err { IfErr result (λ e. Undivided (K.arithmetic kind.now) row.now e) }
    {
        let count = size(kind, row);
        if count == 0 {
            return Err(ReciprocalFault::NoReciprocal(kind.zero()));
        }
        let inverse = kind.reciprocal(row[count - 1])?;
        Ok(Divisor {
            kind,
            row,
            count,
            inverse,
        })
    }

    // The reciprocal of the row's leading code.
    pub fn inverse(&self) -> u64
        ensures { (n : ℕ) → Sized (K.arithmetic self.now.kind.now) self.now.row.now n → Inverts (K.arithmetic self.now.kind.now) self.now.row.now n result }
    {
        self.inverse
    }

    // Clears the place `shift + count - 1` of `rest` by a multiple of the divisor, and answers the factor.
    fn cut(&self, rest: &mut [u64], shift: usize) -> u64
        requires { shift + self.now.count ≤ length rest.old }
        ensures factor { result ≡ (K.arithmetic self.now.kind.now).product (slice_index rest.old (shift + self.now.count - 1)) self.now.inverse }
        ensures left { Lessened (K.arithmetic self.now.kind.now) rest.old rest.new shift result self.now.row.now self.now.count }
    {
        let factor = self.kind.mul(rest[shift + self.count - 1], self.inverse);
        lessen(self.kind, rest, shift, factor, &self.row[..self.count]);
        factor
    }

    // Long division: leaves the remainder in `rest`, and the quotient.
    pub fn divide(&self, rest: &mut [u64], quotient: &mut [u64])
        requires { length rest.old ≤ length quotient.old }
        ensures { Divided (K.arithmetic self.now.kind.now) rest.old self.now.row.now rest.new quotient.new }
    {
        clear(self.kind, quotient);
        for shift in (0..(rest.len() + 1).saturating_sub(self.count)).rev() {
            quotient[shift] = self.cut(rest, shift);
        }
    }

    // The same without a quotient. Its loop stands by itself: one for both would take a closure for the factors, and be longer.
    pub fn reduce(&self, rest: &mut [u64])
        ensures { Reduced (K.arithmetic self.now.kind.now) rest.old self.now.row.now rest.new }
    {
        for shift in (0..(rest.len() + 1).saturating_sub(self.count)).rev() {
            self.cut(rest, shift);
        }
    }
}

// Division of a row: leaves the remainder in `rest`, and the quotient.
pub fn divide_row<K: Coefficients>(
    kind: &K,
    rest: &mut [u64],
    by: &[u64],
    quotient: &mut [u64],
) -> Result<(), ReciprocalFault>
    requires { length rest.old ≤ length quotient.old }
    ensures { Division (K.arithmetic kind.now) rest.old by.now quotient.old rest.new quotient.new result }
{
    Divisor::new(kind, by)?.divide(rest, quotient);
    Ok(())
}

// Leaves the remainder in `rest`.
pub fn reduce_row<K: Coefficients>(
    kind: &K,
    rest: &mut [u64],
    by: &[u64],
) -> Result<(), ReciprocalFault>
    ensures { Reduction (K.arithmetic kind.now) rest.old by.now rest.new result }
{
    Divisor::new(kind, by)?.reduce(rest);
    Ok(())
}
