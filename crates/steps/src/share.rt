// What two rows share, and what each has besides.
ghost use Rattle.steps.specs.Share.{Sharing};

use crate::factored::Factored;
use coefficients::kind::Coefficients;
use polynomials::gcd::gcd_row;
use polynomials::rows::size;
use tables::content::divide_even;
use tables::faults::DivisionFault;

// The monic greatest common divisor of two rows, of some size, and its cofactors.
#[derive(Clone, Copy)]
pub struct Shares {
    pub size: usize,
    pub rows: Factored<16>,
}

// Splits off what two rows share, of which one is not zero.
pub fn share<K: Coefficients>(
    kind: &K,
    a: &[u64; 16],
    b: &[u64; 16],
) -> Result<Shares, DivisionFault>
    ensures { Sharing (K.arithmetic kind.now) a.now b.now result }
{
    let mut divisor = *a;
    let mut rest = *b;
    gcd_row(kind, &mut divisor, &mut rest)?;
    let count = size(kind, &divisor);
    let mut left = [0u64; 16];
    divide_even(kind, a, &divisor, &mut left)?;
    let mut right = [0u64; 16];
    divide_even(kind, b, &divisor, &mut right)?;
    Ok(Shares {
        size: count,
        rows: Factored {
            divisor,
            left,
            right,
        },
    })
}
