// Reading off the greatest common divisor of two prepared tables, and both cofactors.
ghost use Rattle.std.specs.Prelude.{◌≡◌, ℕ, List, length, MatchResult};
ghost use Rattle.tables.specs.Content.{EvenRows};
ghost use Rattle.steps.specs.Answer.{Narrowed, Enlarging, Finishing, Free, Closing};

use crate::factored::Factored;
use crate::prepare::Workings;
use crate::share::share;
use crate::trial::JoinedRows;
use coefficients::kind::Coefficients;
use tables::content::divide_rows;
use tables::faults::DivisionFault;
use tables::rows::Rows;
use tables::scale::multiply_rows;

// The greatest common divisor of two tables, and its cofactors.
pub type Reduction = Factored<256>;

// The first 16 codes of each of 16 rows of 32. Written by place: after a loop over
// `chunks_exact_mut` a proof knows at most the length of what was written.
fn narrow(rows: &[u64; 512]) -> [u64; 256]
    ensures { Narrowed rows.now result }
{
    let mut table = [0u64; 256];
    for (i, row) in Rows::new(rows, 32).each().iter().enumerate() {
        table[16 * i..16 * i + 16].copy_from_slice(&row[..16]);
    }
    table
}

// A table times a polynomial in y.
fn enlarge<K: Coefficients>(
    kind: &K,
    table: &[u64; 256],
    by: &[u64; 16],
) -> Result<[u64; 256], DivisionFault>
    ensures { Enlarging (K.arithmetic kind.now) table.now by.now result }
{
    let mut product = [0u64; 256];
    let rows = Rows {
        codes: table,
        width: 16,
    };
    multiply_rows(kind, &rows, by, &mut product)?;
    Ok(product)
}

// From the greatest common divisor of the parts, and its cofactors, to those of the tables.
fn finish<K: Coefficients>(
    kind: &K,
    workings: &Workings,
    parts: &Factored<256>,
) -> Result<Reduction, DivisionFault>
    ensures { Finishing (K.arithmetic kind.now) workings.now parts.now result }
{
    let contents = share(kind, &workings.left.content, &workings.right.content)?.rows;
    Ok(Reduction {
        divisor: enlarge(kind, &parts.divisor, &contents.divisor)?,
        left: enlarge(kind, &parts.left, &contents.left)?,
        right: enlarge(kind, &parts.right, &contents.right)?,
    })
}

// Where the parts share nothing but constants.
pub fn reduce_free<K: Coefficients>(
    kind: &K,
    workings: &Workings,
) -> Result<Reduction, DivisionFault>
    ensures { Free (K.arithmetic kind.now) workings.now result }
{
    let mut one = [kind.zero(); 256];
    one[0] = kind.one();
    let parts = Factored {
        divisor: one,
        left: workings.left.rows,
        right: workings.right.rows,
    };
    finish(kind, workings, &parts)
}

// 16 rows of 32 codes, each divided by a polynomial in y, which must come out even.
fn divided<K: Coefficients>(
    kind: &K,
    codes: &[u64; 512],
    by: &[u64; 32],
) -> Result<[u64; 512], DivisionFault>
    ensures { MatchResult result (λ q. (length q ≡ 512) × EvenRows (K.arithmetic kind.now) 32 codes.now by.now q (Ok tt)) (λ e. (q : List ℕ) × EvenRows (K.arithmetic kind.now) 32 codes.now by.now q (Err e)) }
{
    let rows = Rows { codes, width: 32 };
    let mut quotient = [0u64; 512];
    divide_rows(kind, &rows, by, &mut quotient)?;
    Ok(quotient)
}

// From what is joined at lucky points: the divisor without its content, and the cofactors without the leading coefficient of that.
pub fn reduce_joined<K: Coefficients>(
    kind: &K,
    workings: &Workings,
    joined: &JoinedRows,
) -> Result<Reduction, DivisionFault>
    ensures { Closing (K.arithmetic kind.now) workings.now joined.now result }
{
    let mut content = [0u64; 32];
    let mut part = [0u64; 512];
    let rows = Rows {
        codes: &joined.divisor,
        width: 32,
    };
    rows.take_content(kind, &mut content, &mut part)?;
    let mut lead = [0u64; 32];
    let rows = Rows {
        codes: &part,
        width: 32,
    };
    rows.lead_row(kind, &mut lead);
    let left = divided(kind, &joined.left, &lead)?;
    let right = divided(kind, &joined.right, &lead)?;
    let parts = Factored {
        divisor: narrow(&part),
        left: narrow(&left),
        right: narrow(&right),
    };
    finish(kind, workings, &parts)
}
