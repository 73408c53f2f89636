// Why a call on rows is refused.
ghost use Rattle.std.specs.Prelude.{◌≡◌};
ghost use Rattle.polynomials.specs.Numbers.{row_number};
ghost use Rattle.polynomials.specs.declared.faults.RowFault.TheVariants.{Reciprocal};

use coefficients::kind::ReciprocalFault;
use rules::refusal::Refusal;

// `row` is the place, from 1, among the arguments that hold codes. It is counted along the call and shown: first, second and third would be the same
// numbers, longer.
#[derive(Clone, Copy, Debug, PartialEq, Eq)]
pub enum RowFault {
    // A row whose length does not fit.
    Length { row: u64, length: usize },
    // The first code that is no element.
    Foreign { row: u64, place: usize, code: u64 },
    // A leading coefficient that has no reciprocal: zero where the divisor is zero.
    Reciprocal(ReciprocalFault),
}

impl RowFault {
    // The number under which the rules list this refusal.
    pub fn number(&self) -> u64
        ensures { result ≡ row_number self.now }
    {
        match self {
            RowFault::Length { .. } => 1,
            RowFault::Foreign { .. } => 2,
            RowFault::Reciprocal(e) => Refusal::from(*e).number(),
        }
    }
}

impl From<ReciprocalFault> for RowFault {
    ghost from_gives = { λ e r. r ≡ Reciprocal e };

    fn from(e: ReciprocalFault) -> RowFault {
        RowFault::Reciprocal(e)
    }
}
