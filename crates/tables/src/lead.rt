// The leading coefficients in x of 16 rows of `width` codes.
ghost use Rattle.std.specs.Prelude.{◌≡◌, length};
ghost use Rattle.tables.specs.Lead.{LeadRow, SharedLeads};

use crate::rows::Rows;
use coefficients::kind::{Coefficients, ReciprocalFault};
use polynomials::gcd::gcd_row;

impl Rows<'_> {
    // Copies the last row that is not zero into `row`, or zeros where there is none.
    pub fn lead_row<K: Coefficients>(&self, kind: &K, row: &mut [u64])
        requires { length row.old ≡ self.now.width }
        ensures { LeadRow (K.arithmetic kind.now) self.now.width self.now.codes.now row.new }
    {
        let last = self.size_x(kind).saturating_sub(1);
        row.copy_from_slice(self.row(last));
    }
}

// Leaves the monic greatest common divisor of the leading coefficients in `shared`, and answers its size.
pub fn lead_gcd<K: Coefficients>(
    kind: &K,
    a: &Rows<'_>,
    b: &Rows<'_>,
    shared: &mut [u64],
) -> Result<usize, ReciprocalFault>
    requires width { b.now.width ≡ a.now.width }
    requires shared { length shared.old ≡ a.now.width }
    ensures { SharedLeads (K.arithmetic kind.now) a.now.width a.now.codes.now b.now.codes.now shared.new result }
{
    a.lead_row(kind, shared);
    // No call allocates, so the room is an array.
    let mut room = [0u64; 32];
    let other = &mut room[..b.width];
    b.lead_row(kind, other);
    gcd_row(kind, shared, other)
}
