// What a job stores. What ties its codes to a kind stands in the promise of each call and in no invariant, a rule of the
// project (docs/DECISIONS.md, Forms).
ghost use Rattle.std.specs.Prelude.{◌≡◌, ◌≤◌, length};
ghost use Rattle.rules.specs.Job.{limit};
ghost use Rattle.reducer.specs.Room.{wanted, classes};

use crate::standing::Standing;
use rules::counts::Counts;
use steps::answer::Reduction;
use steps::factored::Factored;
use steps::prepare::Workings;

// No job takes more offers.
pub const LIMIT: u64 = 1048575;

#[derive(Drop)]
pub struct Job {
    pub(crate) standing: Standing,
    // No image of this degree or a higher one is held.
    pub(crate) ceiling: usize,
    // The degree of the held points, where any is held.
    pub(crate) level: usize,
    pub(crate) counts: Counts,
    pub(crate) workings: Workings,
    // The held points in order, and the images at them, 16 codes for each. No call allocates, so they are arrays with their number in the counts;
    // joining reads the codes of each of the three images as one slice.
    pub(crate) points: [u64; 31],
    pub(crate) images: Factored<496>,
    // What is collected once the job is settled.
    pub(crate) reduction: Reduction,
    ghost stored: { length points ≡ 31 },
    ghost few: { counts.held ≤ 31 },
    ghost room: { wanted standing counts.held ≤ workings.closing },
    ghost closes: { workings.closing ≤ 31 },
    ghost classed: { classes counts ≤ counts.offered },
    ghost limited: { counts.offered ≤ limit },
}
