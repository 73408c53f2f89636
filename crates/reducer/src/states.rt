// A job in its two states: gathering points, and closed.
ghost use Rattle.std.specs.Prelude.{◌≡◌, ℕ, List};
ghost use Rattle.rules.specs.Run.{outcome, offering, running};
ghost use Rattle.reducer.specs.State.{state_of};
ghost use Rattle.reducer.specs.Sound.{Sound};
ghost use Rattle.reducer.specs.Promises.{Opened, Ahead, Offered, After, Runs, Collects};

use crate::job::Job;
use crate::offering::offer_point;
use crate::opening::{check_length, open_job};
use crate::running::run_job;
use crate::standing::Standing;
use coefficients::kind::Coefficients;
use points::source::Source;
use rules::answer::{Answer, Ran};
use rules::refusal::{Refusal, Table};

// A job that takes points.
#[derive(Drop)]
pub struct Gathering<K> {
    kind: K,
    job: Job,
}

impl<K: Coefficients + Copy> Gathering<K> {
    // Opens a job for two tables. Where that is refused the job is void, and keeps the refusal.
    pub fn open(kind: K, a: &[u64], b: &[u64]) -> Gathering<K>
        ensures kind { result.kind ≡ kind }
        ensures opened { Opened (K.Coefficients.arithmetic kind) a.now b.now (state_of result.job) }
        ensures sound { Sound (K.Coefficients.arithmetic kind) a.now b.now result.job }
        ensures law { Ahead (K.Coefficients.arithmetic kind) a.now b.now }
    {
        let job = open_job(&kind, a, b);
        Gathering { kind, job }
    }

    // Offers a point.
    pub fn offer(&mut self, point: u64) -> Result<Answer, Refusal>
        ensures kind { self.new.kind ≡ self.old.kind }
        ensures offered { (a b : List ℕ) → Sound (K.Coefficients.arithmetic self.old.kind) a b self.old.job → Offered (K.Coefficients.arithmetic self.old.kind) a b (state_of self.old.job) point (state_of self.new.job) result }
        ensures sound { (a b : List ℕ) → Sound (K.Coefficients.arithmetic self.old.kind) a b self.old.job → Sound (K.Coefficients.arithmetic self.old.kind) a b self.new.job }
        ensures law { (a b : List ℕ) → Sound (K.Coefficients.arithmetic self.old.kind) a b self.old.job → After (K.Coefficients.arithmetic self.old.kind) a b (state_of self.old.job) (offering point) (state_of self.new.job) }
    {
        let kind = self.kind;
        offer_point(&kind, &mut self.job, point)
    }

    // Draws points from a source and offers them, until the job is settled or full, the draws are spent or the source is empty.
    pub fn run<S: Source>(&mut self, source: &mut S, draws: u64) -> Ran
        ensures kind { self.new.kind ≡ self.old.kind }
        ensures ran { (a b : List ℕ) → Sound (K.Coefficients.arithmetic self.old.kind) a b self.old.job → Runs (K.Coefficients.arithmetic self.old.kind) a b (state_of self.old.job) draws (S.Source.waiting source.old) (outcome (state_of self.new.job) (S.Source.waiting source.new) result.drawn result.ending) }
        ensures sound { (a b : List ℕ) → Sound (K.Coefficients.arithmetic self.old.kind) a b self.old.job → Sound (K.Coefficients.arithmetic self.old.kind) a b self.new.job }
        ensures law { (a b : List ℕ) → Sound (K.Coefficients.arithmetic self.old.kind) a b self.old.job → After (K.Coefficients.arithmetic self.old.kind) a b (state_of self.old.job) (running (S.Source.waiting source.old) draws) (state_of self.new.job) }
    {
        let kind = self.kind;
        run_job(&kind, &mut self.job, source, draws)
    }

    // Ends the gathering. Nothing is refused, and everything is kept.
    pub fn close(self) -> Closed<K>
        ensures kind { result.kind ≡ self.kind }
        ensures job { result.job ≡ self.job }
    {
        let Gathering { kind, job } = self;
        Closed { kind, job }
    }

    pub fn job(&self) -> &Job
        ensures { result.now ≡ self.now.job }
    {
        &self.job
    }
}

// A job that takes no more points.
#[derive(Drop)]
pub struct Closed<K> {
    kind: K,
    job: Job,
}

impl<K: Coefficients> Closed<K> {
    // Writes the greatest common divisor and both cofactors whole into three tables.
    pub fn collect(
        &self,
        divisor: &mut [u64],
        cofactor_a: &mut [u64],
        cofactor_b: &mut [u64],
    ) -> Result<(), Refusal>
        ensures { (a b : List ℕ) → Sound (K.Coefficients.arithmetic self.now.kind) a b self.now.job → Collects (K.Coefficients.arithmetic self.now.kind) a b (state_of self.now.job) divisor.old cofactor_a.old cofactor_b.old divisor.new cofactor_a.new cofactor_b.new result }
    {
        match self.job.standing {
            Standing::Void(refusal) => return Err(refusal),
            Standing::Gathering => return Err(Refusal::Short(self.job.counts())),
            Standing::Settled => {}
        }
        check_length(Table::Divisor, divisor)?;
        check_length(Table::CofactorA, cofactor_a)?;
        check_length(Table::CofactorB, cofactor_b)?;
        divisor.copy_from_slice(&self.job.reduction.divisor);
        cofactor_a.copy_from_slice(&self.job.reduction.left);
        cofactor_b.copy_from_slice(&self.job.reduction.right);
        Ok(())
    }

    pub fn job(&self) -> &Job
        ensures { result.now ≡ self.now.job }
    {
        &self.job
    }
}
