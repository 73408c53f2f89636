// What is found where y is set to a point.
ghost use Rattle.steps.specs.Look.{Imaging, Looking};

use crate::factored::Factored;
use crate::prepare::{Workings, degree};
use crate::share::{Shares, share};
use coefficients::kind::Coefficients;
use polynomials::evaluate::{horner, image_row};
use polynomials::rows::scale;
use tables::faults::DivisionFault;

// The images of the two parts at a point: γ there times their monic greatest common divisor, whose degree is named, and both cofactors.
#[derive(Clone, Copy)]
pub struct ImageRows {
    pub degree: usize,
    pub rows: Factored<16>,
}

// The images at a point where γ has some value.
fn images<K: Coefficients>(
    kind: &K,
    workings: &Workings,
    point: u64,
    value: u64,
) -> Result<ImageRows, DivisionFault>
    ensures { Imaging (K.arithmetic kind.now) workings.now point value result }
{
    let mut a = [0u64; 16];
    image_row(kind, &workings.left.rows, point, &mut a);
    let mut b = [0u64; 16];
    image_row(kind, &workings.right.rows, point, &mut b);
    let Shares { size, mut rows } = share(kind, &a, &b)?;
    scale(kind, &mut rows.divisor, value);
    Ok(ImageRows {
        degree: degree(size),
        rows,
    })
}

// Looks at a point: nothing is found where γ is zero, and a kind that is no field may fail.
pub fn look<K: Coefficients>(
    kind: &K,
    workings: &Workings,
    point: u64,
) -> Result<Option<ImageRows>, DivisionFault>
    ensures { Looking (K.arithmetic kind.now) workings.now point result }
{
    let value = horner(kind, &workings.lead, point);
    if value == kind.zero() {
        return Ok(None);
    }
    Ok(Some(images(kind, workings, point, value)?))
}
