// Why a division of rows is refused.
ghost use Rattle.std.specs.Prelude.{◌≡◌};
ghost use Rattle.tables.specs.declared.faults.DivisionFault.TheVariants.{Reciprocal, Uneven};

use coefficients::kind::ReciprocalFault;
use polynomials::product::NoRoom;

// Why a division that must come out even is refused.
#[derive(Clone, Copy, Debug, PartialEq, Eq)]
pub enum DivisionFault {
    // The divisor's leading coefficient has no reciprocal: zero where the divisor is zero.
    Reciprocal(ReciprocalFault),
    // A remainder that is not zero.
    Uneven,
}

// As for RowFault in polynomials: each error needs its own, since an impl of From is for one type.
impl From<ReciprocalFault> for DivisionFault {
    ghost from_gives = { λ e r. r ≡ Reciprocal e };

    fn from(e: ReciprocalFault) -> DivisionFault {
        DivisionFault::Reciprocal(e)
    }
}

impl From<NoRoom> for DivisionFault {
    ghost from_gives = { λ _ r. r ≡ Uneven };

    fn from(_e: NoRoom) -> DivisionFault {
        DivisionFault::Uneven
    }
}
