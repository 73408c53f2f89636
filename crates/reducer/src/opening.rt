// Opening a job: the checks in their order, and the job that comes of them.
ghost use Rattle.std.specs.Prelude.{◌≡◌, ◌≤◌, true};
ghost use Rattle.reducer.specs.Room.{wanted};
ghost use Rattle.reducer.specs.State.{state_of};
ghost use Rattle.reducer.specs.Checks.{Long, AllElements, SomeCode, Leads, Checked, Begun, Voided};
ghost use Rattle.reducer.specs.Sound.{Sound};
ghost use Rattle.reducer.specs.Promises.{Opened};

use crate::faults::named_element;
use crate::job::Job;
use crate::standing::Standing;
use coefficients::kind::Coefficients;
use polynomials::rows::{first_foreign, size};
use rules::counts::Counts;
use rules::refusal::{Refusal, Stage, Table};
use steps::answer::Reduction;
use steps::factored::Factored;
use steps::prepare::{Part, Workings, prepare};

// A table has 256 codes.
pub fn check_length(table: Table, codes: &[u64]) -> Result<(), Refusal>
    ensures { Long table codes.now result }
{
    match codes.len() {
        256 => Ok(()),
        length => Err(Refusal::Length { table, length }),
    }
}

// Every code is an element: the first that is none is named.
fn check_elements<K: Coefficients>(kind: &K, table: Table, codes: &[u64]) -> Result<(), Refusal>
    ensures { AllElements (K.arithmetic kind.now) table codes.now result }
{
    match first_foreign(kind, codes) {
        Some((place, code)) => Err(Refusal::ForeignCode { table, place, code }),
        None => Ok(()),
    }
}

// Some code is not zero; answers one more than the place of the last.
fn check_some<K: Coefficients>(kind: &K, table: Table, codes: &[u64]) -> Result<usize, Refusal>
    ensures { SomeCode (K.arithmetic kind.now) table codes.now result }
{
    match size(kind, codes) {
        0 => Err(Refusal::Zero { table }),
        count => Ok(count),
    }
}

// The coefficient of a leading term has a reciprocal.
fn check_lead<K: Coefficients>(kind: &K, element: u64) -> Result<(), Refusal>
    requires { (K.arithmetic kind.now).element element ≡ true }
    ensures { Leads (K.arithmetic kind.now) element result }
{
    kind.reciprocal(element).map_err(|_| Refusal::NoField {
        element,
        stage: Stage::Opening,
    })?;
    Ok(())
}

// The checks of an opening.
fn check<K: Coefficients>(kind: &K, a: &[u64], b: &[u64]) -> Result<(), Refusal>
    ensures { Checked (K.arithmetic kind.now) a.now b.now result }
{
    check_length(Table::A, a)?;
    check_length(Table::B, b)?;
    check_elements(kind, Table::A, a)?;
    check_elements(kind, Table::B, b)?;
    let left = check_some(kind, Table::A, a)?;
    let right = check_some(kind, Table::B, b)?;
    check_lead(kind, a[left - 1])?;
    check_lead(kind, b[right - 1])
}

// A job that begins.
fn begin(standing: Standing, workings: Workings) -> Job
    requires room { wanted standing 0 ≤ workings.closing }
    requires closes { workings.closing ≤ 31 }
    ensures { Begun standing workings result }
{
    Job {
        standing,
        ceiling: workings.ceiling,
        level: 0,
        counts: Counts::default(),
        workings,
        points: [0; 31],
        images: Factored::zeros(),
        reduction: Reduction::zeros(),
    }
}

// A void job.
fn refuse(refusal: Refusal) -> Job
    ensures { Voided refusal result }
{
    let left = Part {
        content: [0; 16],
        rows: [0; 256],
        degree_x: 0,
        degree_y: 0,
    };
    let workings = Workings {
        left,
        right: left,
        lead: [0; 16],
        height_left: 0,
        height_right: 0,
        closing: 0,
        ceiling: 0,
    };
    begin(Standing::Void(refusal), workings)
}

// Opens a job for two tables.
pub fn open_job<K: Coefficients>(kind: &K, a: &[u64], b: &[u64]) -> Job
    ensures opened { Opened (K.arithmetic kind.now) a.now b.now (state_of result) }
    ensures sound { Sound (K.arithmetic kind.now) a.now b.now result }
{
    if let Err(refusal) = check(kind, a, b) {
        return refuse(refusal);
    }
    match prepare(kind, a, b) {
        Ok(workings) => begin(Standing::Gathering, workings),
        Err(fault) => refuse(Refusal::NoField {
            element: named_element(fault),
            stage: Stage::Opening,
        }),
    }
}
