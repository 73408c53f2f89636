// What an offer does to a job: first what the point is found to be, then what comes of it.
// The kind is lent beside the job, and no step has both in one type: a rule of the project, by which a state copies its kind out first
// (docs/DECISIONS.md, Forms).
// Room for one more offer stands in a clause of each step. Tried as a ghost field of a type that lends the job: its proof did not close, since the field is owed until the type is taken apart, and counting the offer makes it false.
ghost use Rattle.std.specs.Prelude.{◌≡◌, ◌+◌, ◌-◌, ◌<◌, ◌≤◌, if◌then◌else◌, nat_eq, nat_lt, slice_index};
ghost use Rattle.rules.specs.Job.{limit, gathering, settled, void};
ghost use Rattle.rules.specs.Offer.{too_high, counting};
ghost use Rattle.rules.specs.declared.refusal.Refusal.TheVariants as Refused;
ghost use Rattle.rules.specs.declared.refusal.Stage.TheVariants as At;
ghost use Rattle.rules.specs.declared.answer.Answer.TheVariants as Answered;
ghost use Rattle.reducer.specs.declared.standing.Standing.TheVariants as Stands;
ghost use Rattle.reducer.specs.State.{state_of, tallied};
ghost use Rattle.reducer.specs.Sound.{Sound, element_of};
ghost use Rattle.reducer.specs.Holding.{Phased, Classed, SameRows, Kept, moved, Fitting, Promised, Complete};

use crate::counting::{Tallied, accept, tally};
use crate::faults::named_element;
use crate::held::put_images;
use crate::job::Job;
use crate::standing::Standing;
use coefficients::kind::Coefficients;
use rules::answer::Answer;
use rules::refusal::{Refusal, Stage};
use steps::answer::{Reduction, reduce_free};
use steps::images::Images;
use steps::look::{ImageRows, look};
use steps::verdict::decide;
use tables::faults::DivisionFault;

// What a job is when a point is offered.
#[derive(Clone, Copy, Debug, PartialEq, Eq)]
pub enum Phase {
    Void(Refusal),
    Full,
    Settled,
    Gathering,
}

// What an offered point is.
#[derive(Clone, Copy)]
pub enum Class {
    Foreign,
    Repeated,
    Vanishing,
    // Its image has too high a degree.
    High(usize),
    // It can be held.
    Fitting(ImageRows),
    // A fault stood in the way, in a kind that is no field.
    Stuck(DivisionFault),
}

fn phase_of(job: &Job) -> Phase
    ensures { Phased job.now result }
{
    match job.standing {
        Standing::Void(refusal) => Phase::Void(refusal),
        _ if job.is_full() => Phase::Full,
        Standing::Settled => Phase::Settled,
        Standing::Gathering => Phase::Gathering,
    }
}

// Whether an image of this degree is too high to be held.
fn is_high(job: &Job, degree: usize) -> bool
    ensures { result ≡ too_high (state_of job.now) degree }
{
    job.ceiling <= degree || (job.counts.held > 0 && job.level < degree)
}

fn class_of<K: Coefficients>(kind: &K, job: &Job, point: u64) -> Class
    ensures { Classed (K.arithmetic kind.now) job.now point result }
{
    if !kind.contains(point) {
        return Class::Foreign;
    }
    if job.holds(point) {
        return Class::Repeated;
    }
    match look(kind, &job.workings, point) {
        Ok(None) => Class::Vanishing,
        Ok(Some(image)) if is_high(job, image.degree) => Class::High(image.degree),
        Ok(Some(image)) => Class::Fitting(image),
        Err(fault) => Class::Stuck(fault),
    }
}

// How many of the held points are kept beside one of this degree: none where theirs is higher.
fn kept_beside(job: &Job, degree: usize) -> usize
    ensures { result ≡ (if nat_lt degree job.now.level then 0 else job.now.counts.held) }
{
    if degree < job.level {
        0
    } else {
        job.counts.held as usize
    }
}

// One more offer, in a class, and nothing else changes.
fn count(job: &mut Job, class: Tallied)
    requires { job.old.counts.offered < limit }
    ensures state { state_of job.new ≡ counting (state_of job.old) (tallied class (state_of job.old).tally) }
    ensures kept { Kept job.old job.new }
{
    job.counts = tally(job.counts, class);
}

// A fault makes the job void.
fn make_void(job: &mut Job, fault: DivisionFault) -> Refusal
    requires { job.old.counts.offered < limit }
    ensures answer { result ≡ Refused.NoField (element_of fault) At.Offer }
    ensures state { state_of job.new ≡ moved job.old (void result) job.old.ceiling job.old.level 0 job.old.counts.held }
    ensures standing { job.new.standing ≡ Stands.Void result }
{
    let refusal = Refusal::NoField {
        element: named_element(fault),
        stage: Stage::Offer,
    };
    job.counts = accept(job.counts, 0, job.counts.held);
    job.standing = Standing::Void(refusal);
    refusal
}

// The job is settled with a point that is held after `kept` others.
fn settle(job: &mut Job, kept: usize, degree: usize, reduction: Reduction) -> Answer
    requires room { job.old.counts.offered < limit }
    requires fewer { kept ≤ job.old.counts.held }
    requires place { kept < 31 }
    ensures answer { result ≡ Answered.Settled degree (job.old.counts.held - kept) }
    ensures state { state_of job.new ≡ moved job.old settled job.old.ceiling degree (job.old.counts.held - kept) (kept + 1) }
    ensures standing { job.new.standing ≡ Stands.Settled }
    ensures reduction { job.new.reduction ≡ reduction }
{
    let dropped = job.counts.held - kept as u64;
    job.counts = accept(job.counts, dropped, kept as u64 + 1);
    job.level = degree;
    job.reduction = reduction;
    job.standing = Standing::Settled;
    Answer::Settled {
        degree: degree as u64,
        dropped,
    }
}

// All points are let go with this one, and no image of its degree is held any more.
fn overturn(job: &mut Job, degree: usize) -> Answer
    requires room { job.old.counts.offered < limit }
    requires closes { 1 ≤ job.old.workings.closing }
    ensures answer { result ≡ Answered.Overturned degree (job.old.counts.held + 1) }
    ensures state { state_of job.new ≡ moved job.old gathering degree degree (job.old.counts.held + 1) 0 }
    ensures held { job.new.counts.held ≡ 0 }
    ensures standing { job.new.standing ≡ Stands.Gathering }
    ensures rows { SameRows job.old job.new }
{
    let dropped = job.counts.held + 1;
    job.counts = accept(job.counts, dropped, 0);
    job.level = degree;
    job.ceiling = degree;
    job.standing = Standing::Gathering;
    Answer::Overturned {
        degree: degree as u64,
        dropped,
    }
}

// The point is held after `kept` others.
fn keep(job: &mut Job, kept: usize, degree: usize) -> Answer
    requires room { job.old.counts.offered < limit }
    requires fewer { kept ≤ job.old.counts.held }
    requires open { kept + 1 < job.old.workings.closing }
    ensures answer { result ≡ (if nat_eq (job.old.counts.held - kept) 0 then Answered.Held degree (job.old.counts.held - kept) else Answered.Lowered degree (job.old.counts.held - kept)) }
    ensures state { state_of job.new ≡ moved job.old gathering job.old.ceiling degree (job.old.counts.held - kept) (kept + 1) }
    ensures held { job.new.counts.held ≡ kept + 1 }
    ensures standing { job.new.standing ≡ Stands.Gathering }
    ensures rows { SameRows job.old job.new }
{
    let dropped = job.counts.held - kept as u64;
    job.counts = accept(job.counts, dropped, kept as u64 + 1);
    job.level = degree;
    job.standing = Standing::Gathering;
    let degree = degree as u64;
    if dropped == 0 {
        Answer::Held { degree, dropped }
    } else {
        Answer::Lowered { degree, dropped }
    }
}

// An image of degree 0 settles the job.
fn hold_constant<K: Coefficients>(
    kind: &K,
    job: &mut Job,
    point: u64,
    kept: usize,
    image: &ImageRows,
) -> Result<Answer, Refusal>
    requires room { job.old.counts.offered < limit }
    requires place { kept < 31 }
    requires kept { kept ≡ (if nat_lt image.now.degree job.old.level then 0 else job.old.counts.held) }
    requires constant { image.now.degree ≡ 0 }
    ensures { Promised (K.arithmetic kind.now) (λ a b. Fitting (K.arithmetic kind.now) a b job.old point image.now) job.old point job.new result }
{
    match reduce_free(kind, &job.workings) {
        Ok(reduction) => {
            job.points[kept] = point;
            put_images(&mut job.images, kept, &image.rows);
            Ok(settle(job, kept, image.degree, reduction))
        }
        Err(fault) => Err(make_void(job, fault)),
    }
}

// As many points as the closing number, of which the last is not counted yet, are joined and tested.
fn hold_last<K: Coefficients>(kind: &K, job: &mut Job, degree: usize) -> Result<Answer, Refusal>
    requires room { job.old.counts.offered < limit }
    requires number { job.old.counts.held + 1 ≡ job.old.workings.closing }
    ensures { Promised (K.arithmetic kind.now) (λ a b. Complete (K.arithmetic kind.now) a b job.old degree) job.old (slice_index job.old.points job.old.counts.held) job.new result }
{
    let held = job.counts.held as usize;
    let count = held + 1;
    let images = Images {
        points: &job.points[..count],
        divisors: &job.images.divisor[..16 * count],
        lefts: &job.images.left[..16 * count],
        rights: &job.images.right[..16 * count],
    };
    match decide(kind, &job.workings, &images) {
        Ok(Some(reduction)) => Ok(settle(job, held, degree, reduction)),
        Ok(None) => Ok(overturn(job, degree)),
        Err(fault) => Err(make_void(job, fault)),
    }
}

// Holds a point: held points of a higher degree are let go.
fn hold<K: Coefficients>(
    kind: &K,
    job: &mut Job,
    point: u64,
    image: &ImageRows,
) -> Result<Answer, Refusal>
    requires standing { job.old.standing ≡ Stands.Gathering }
    requires room { job.old.counts.offered < limit }
    ensures { Promised (K.arithmetic kind.now) (λ a b. Fitting (K.arithmetic kind.now) a b job.old point image.now) job.old point job.new result }
{
    let kept = kept_beside(job, image.degree);
    if image.degree == 0 {
        return hold_constant(kind, job, point, kept, image);
    }
    job.points[kept] = point;
    put_images(&mut job.images, kept, &image.rows);
    if kept + 1 == job.workings.closing {
        hold_last(kind, job, image.degree)
    } else {
        Ok(keep(job, kept, image.degree))
    }
}

// Offers a point.
pub fn offer_point<K: Coefficients>(kind: &K, job: &mut Job, point: u64) -> Result<Answer, Refusal>
    ensures { Promised (K.arithmetic kind.now) (λ a b. Sound (K.arithmetic kind.now) a b job.old) job.old point job.new result }
{
    let class = class_of(kind, job, point);
    match (phase_of(job), class) {
        (Phase::Void(refusal), _) => Err(refusal),
        (Phase::Full, _) => Err(Refusal::Full(job.counts)),
        (Phase::Settled, _) => {
            count(job, Tallied::Late);
            Err(Refusal::Settled { point })
        }
        (Phase::Gathering, Class::Foreign) => {
            count(job, Tallied::Foreign);
            Err(Refusal::ForeignPoint { point })
        }
        (Phase::Gathering, Class::Repeated) => {
            count(job, Tallied::Repeated);
            Err(Refusal::Repeated { point })
        }
        (Phase::Gathering, Class::Vanishing) => {
            count(job, Tallied::Vanishing);
            Err(Refusal::Vanishing { point })
        }
        (Phase::Gathering, Class::High(degree)) => {
            count(job, Tallied::High);
            Err(Refusal::High {
                point,
                degree: degree as u64,
            })
        }
        (Phase::Gathering, Class::Fitting(image)) => hold(kind, job, point, &image),
        (Phase::Gathering, Class::Stuck(fault)) => Err(make_void(job, fault)),
    }
}
