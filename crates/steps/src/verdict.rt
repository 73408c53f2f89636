// What comes of as many points as the closing number.
ghost use Rattle.steps.specs.Verdict.{Deciding};

use crate::answer::{Reduction, reduce_joined};
use crate::images::Images;
use crate::prepare::Workings;
use crate::trial::{join_images, passes};
use coefficients::kind::Coefficients;
use tables::faults::DivisionFault;

// Joins the images at the points, tests what is joined, and reads off the answer: none where the test is failed.
pub fn decide<K: Coefficients>(
    kind: &K,
    workings: &Workings,
    images: &Images<'_>,
) -> Result<Option<Reduction>, DivisionFault>
    ensures { Deciding (K.arithmetic kind.now) workings.now images.now.points.now images.now.divisors.now images.now.lefts.now images.now.rights.now result }
{
    let joined = join_images(kind, images)?;
    if !passes(kind, workings, &joined) {
        return Ok(None);
    }
    Ok(Some(reduce_joined(kind, workings, &joined)?))
}
