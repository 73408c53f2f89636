// What is read of a job.
ghost use Rattle.std.specs.Prelude.{◌≡◌, ◌≤◌, ◌↔◌, IsTrue};
ghost use Rattle.rules.specs.Job.{limit, counts};
ghost use Rattle.rules.specs.Offer.{member};
ghost use Rattle.reducer.specs.State.{state_of};

use crate::job::{Job, LIMIT};
use crate::standing::Standing;
use rules::counts::Counts;

impl Job {
    pub fn standing(&self) -> Standing
        ensures { result ≡ self.now.standing }
    {
        self.standing
    }

    pub fn counts(&self) -> Counts
        ensures { result ≡ counts (state_of self.now) }
    {
        self.counts
    }

    // The held points, in order of holding.
    pub fn points(&self) -> &[u64]
        ensures { result.now ≡ (state_of self.now).held }
    {
        &self.points[..self.counts.held as usize]
    }

    pub(crate) fn holds(&self, point: u64) -> bool
        ensures { result ≡ member point (state_of self.now).held }
    {
        self.points().contains(&point)
    }

    pub(crate) fn is_full(&self) -> bool
        ensures { IsTrue result ↔ (limit ≤ self.now.counts.offered) }
    {
        LIMIT <= self.counts.offered
    }
}
