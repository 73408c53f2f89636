// The monic greatest common divisor, by Euclid's algorithm.
ghost use Rattle.std.specs.Prelude.{◌≡◌, length};
ghost use Rattle.polynomials.specs.Steps.{MadeMonic, Common};
ghost use Rattle.polynomials.specs.Calls.{Sharing};

use crate::divide::reduce_row;
use crate::faults::RowFault;
use crate::rows::{check_codes, scale, size};
use coefficients::kind::{Coefficients, ReciprocalFault};

// Leaves the monic greatest common divisor of two rows of one length in `a`, and answers its size. `b` is left zero.
pub fn gcd<K: Coefficients>(kind: &K, a: &mut [u64], b: &mut [u64]) -> Result<usize, RowFault>
    ensures { Sharing (K.arithmetic kind.now) a.old b.old a.new b.new result }
{
    if a.len() != b.len() {
        return Err(RowFault::Length {
            row: 2,
            length: b.len(),
        });
    }
    check_codes(kind, a, 1)?;
    check_codes(kind, b, 2)?;
    Ok(gcd_row(kind, a, b)?)
}

// Makes the leading coefficient one, and answers the size.
pub fn make_monic<K: Coefficients>(kind: &K, row: &mut [u64]) -> Result<usize, ReciprocalFault>
    ensures { MadeMonic (K.arithmetic kind.now) row.old row.new result }
{
    let n = size(kind, row);
    if n == 0 {
        return Ok(0);
    }
    let inverse = kind.reciprocal(row[n - 1])?;
    scale(kind, row, inverse);
    Ok(n)
}

// Takes remainders until nothing is left, and makes the last divisor monic.
pub fn gcd_row<K: Coefficients>(
    kind: &K,
    a: &mut [u64],
    b: &mut [u64],
) -> Result<usize, ReciprocalFault>
    requires { length a.old ≡ length b.old }
    ensures { Common (K.arithmetic kind.now) a.old b.old a.new b.new result }
{
    let mut n = size(kind, b);
    while n > 0 {
        reduce_row(kind, a, b)?;
        a.swap_with_slice(b);
        n = size(kind, b);
    }
    make_monic(kind, a)
}
