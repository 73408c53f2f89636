// Joining the images at points, and the test of what is joined.
ghost use Rattle.std.specs.Prelude.{◌≡◌, ℕ, ◌<◌, pred};
ghost use Rattle.tables.specs.Degrees.{SizeY};
ghost use Rattle.steps.specs.Trial.{Joins, Trying};

use crate::factored::Factored;
use crate::images::Images;
use crate::prepare::{Workings, degree};
use coefficients::kind::Coefficients;
use tables::faults::DivisionFault;
use tables::join::join;
use tables::rows::Rows;

// What is joined from images, as rows of 32 codes.
pub type JoinedRows = Factored<512>;

// Joins the images at different points.
pub fn join_images<K: Coefficients>(
    kind: &K,
    images: &Images<'_>,
) -> Result<JoinedRows, DivisionFault>
    ensures { Joins (K.arithmetic kind.now) images.now.points.now images.now.divisors.now images.now.lefts.now images.now.rights.now result }
{
    let mut joined = JoinedRows::zeros();
    join(kind, images.points, images.divisors, &mut joined.divisor)?;
    join(kind, images.points, images.lefts, &mut joined.left)?;
    join(kind, images.points, images.rights, &mut joined.right)?;
    Ok(joined)
}

// The degree in y of 16 rows of 32 codes.
fn height_of<K: Coefficients>(kind: &K, codes: &[u64; 512]) -> usize
    ensures degree { (n : ℕ) × SizeY (K.arithmetic kind.now) 32 codes.now n × (result ≡ pred n) }
    ensures few { result < 32 }
{
    let rows = Rows { codes, width: 32 };
    degree(rows.size_y(kind))
}

// Whether the degrees in y of what is joined add up.
pub fn passes<K: Coefficients>(kind: &K, workings: &Workings, joined: &JoinedRows) -> bool
    ensures { Trying (K.arithmetic kind.now) workings.now joined.now result }
{
    let height = height_of(kind, &joined.divisor);
    let left = height_of(kind, &joined.left);
    let right = height_of(kind, &joined.right);
    workings.height_left == height + left && workings.height_right == height + right
}
