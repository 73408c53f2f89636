// A run: points are drawn from a source and offered.
ghost use Rattle.std.specs.Prelude.{ℕ, List};
ghost use Rattle.rules.specs.Run.{check, outcome};
ghost use Rattle.reducer.specs.State.{state_of};
ghost use Rattle.reducer.specs.Sound.{Sound};
ghost use Rattle.reducer.specs.Promises.{CheckedAs, Drawing, Runs};

use crate::job::Job;
use crate::offering::offer_point;
use crate::standing::Standing;
use coefficients::kind::Coefficients;
use points::source::Source;
use rules::answer::Ran;
use rules::refusal::Refusal;

// Why a run stops before its next draw, but for its source: void, settled, full, or so many points drawn.
fn cause_to_stop(job: &Job, drawn: u64, draws: u64) -> Option<Result<(), Refusal>>
    ensures { CheckedAs (check (state_of job.now) drawn draws) result }
{
    match job.standing {
        Standing::Void(refusal) => Some(Err(refusal)),
        Standing::Settled => Some(Ok(())),
        Standing::Gathering if job.is_full() => Some(Err(Refusal::Full(job.counts))),
        Standing::Gathering if drawn == draws => Some(Err(Refusal::Spent(job.counts))),
        Standing::Gathering => None,
    }
}

// Draws and offers until there is a cause to stop. A loop and no `for` over the draws: a cause is looked for before each draw and once more after
// the last, when such a range has ended.
fn draw_points<K: Coefficients, S: Source>(
    kind: &K,
    job: &mut Job,
    source: &mut S,
    draws: u64,
) -> Ran
    ensures drawing { (a b : List ℕ) → Sound (K.Coefficients.arithmetic kind.now) a b job.old → Drawing (K.Coefficients.arithmetic kind.now) a b (state_of job.old) draws (S.Source.waiting source.old) (outcome (state_of job.new) (S.Source.waiting source.new) result.drawn result.ending) }
    ensures sound { (a b : List ℕ) → Sound (K.Coefficients.arithmetic kind.now) a b job.old → Sound (K.Coefficients.arithmetic kind.now) a b job.new }
{
    let mut drawn = 0;
    'drawing: loop {
        if let Some(ending) = cause_to_stop(job, drawn, draws) {
            return Ran { drawn, ending };
        }
        let Some(point) = source.draw() else {
            return Ran {
                drawn,
                ending: Err(Refusal::Empty(job.counts)),
            };
        };
        let _ = offer_point(kind, job, point);
        drawn += 1;
    }
}

// Runs over a source. Only a job that is settled before gives a refusal for it.
pub fn run_job<K: Coefficients, S: Source>(
    kind: &K,
    job: &mut Job,
    source: &mut S,
    draws: u64,
) -> Ran
    ensures ran { (a b : List ℕ) → Sound (K.Coefficients.arithmetic kind.now) a b job.old → Runs (K.Coefficients.arithmetic kind.now) a b (state_of job.old) draws (S.Source.waiting source.old) (outcome (state_of job.new) (S.Source.waiting source.new) result.drawn result.ending) }
    ensures sound { (a b : List ℕ) → Sound (K.Coefficients.arithmetic kind.now) a b job.old → Sound (K.Coefficients.arithmetic kind.now) a b job.new }
{
    if let Standing::Settled = job.standing {
        return Ran {
            drawn: 0,
            ending: Err(Refusal::Settled { point: 0 }),
        };
    }
    draw_points(kind, job, source, draws)
}
