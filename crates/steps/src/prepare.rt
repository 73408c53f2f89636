// What a job is opened with: contents, the tables without them, what their leading coefficients share, and the numbers that follow.
ghost use Rattle.std.specs.Prelude.{◌≡◌, pred, length};
ghost use Rattle.steps.specs.Prepare.{Parting, Preparing};

use coefficients::kind::Coefficients;
use polynomials::rows::size;
use tables::faults::DivisionFault;
use tables::lead::lead_gcd;
use tables::rows::Rows;

// A table without its content, and its degrees.
#[derive(Clone, Copy)]
pub struct Part {
    pub content: [u64; 16],
    pub rows: [u64; 256],
    pub degree_x: usize,
    pub degree_y: usize,
}

// Two tables, prepared: `lead` is the greatest common divisor of the leading coefficients in x of the parts.
#[derive(Clone, Copy)]
pub struct Workings {
    pub left: Part,
    pub right: Part,
    pub lead: [u64; 16],
    // The degrees in y of the parts times `lead`.
    pub height_left: usize,
    pub height_right: usize,
    // As many points of one degree are joined and tested.
    pub closing: usize,
    // No image of this degree or a higher one is held.
    pub ceiling: usize,
}

// The degree of a polynomial of some size, and 0 of zero.
pub fn degree(n: usize) -> usize
    ensures { result ≡ pred n }
{
    n.saturating_sub(1)
}

// Splits the content off a table.
fn part_of<K: Coefficients>(kind: &K, table: &[u64]) -> Result<Part, DivisionFault>
    requires { length table.now ≡ 256 }
    ensures { Parting (K.arithmetic kind.now) table.now result }
{
    let mut content = [0u64; 16];
    let mut rows = [0u64; 256];
    let whole = Rows {
        codes: table,
        width: 16,
    };
    whole.take_content(kind, &mut content, &mut rows)?;
    let part = Rows {
        codes: &rows,
        width: 16,
    };
    let degree_x = degree(part.size_x(kind));
    let degree_y = degree(part.size_y(kind));
    Ok(Part {
        content,
        rows,
        degree_x,
        degree_y,
    })
}

// Prepares two tables.
pub fn prepare<K: Coefficients>(kind: &K, a: &[u64], b: &[u64]) -> Result<Workings, DivisionFault>
    requires a_long { length a.now ≡ 256 }
    requires b_long { length b.now ≡ 256 }
    ensures { Preparing (K.arithmetic kind.now) a.now b.now result }
{
    let left = part_of(kind, a)?;
    let right = part_of(kind, b)?;
    let mut lead = [0u64; 16];
    let a = Rows {
        codes: &left.rows,
        width: 16,
    };
    let b = Rows {
        codes: &right.rows,
        width: 16,
    };
    lead_gcd(kind, &a, &b, &mut lead)?;
    let lead_degree = degree(size(kind, &lead));
    let height_left = lead_degree + left.degree_y;
    let height_right = lead_degree + right.degree_y;
    let closing = height_left.max(height_right) + 1;
    let ceiling = left.degree_x.min(right.degree_x) + 1;
    Ok(Workings {
        left,
        right,
        lead,
        height_left,
        height_right,
        closing,
        ceiling,
    })
}
