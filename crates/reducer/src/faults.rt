// What a fault of a kind that is no field names.
ghost use Rattle.std.specs.Prelude.{◌≡◌};
ghost use Rattle.reducer.specs.Sound.{element_of};

use coefficients::kind::ReciprocalFault;
use tables::faults::DivisionFault;

// The element that a fault names, and 0 where a division did not come out even.
// Read off, and no From: a refusal names a stage too, which only the caller knows, and a number is not what a fault turns into.
pub fn named_element(fault: DivisionFault) -> u64
    ensures { result ≡ element_of fault }
{
    match fault {
        DivisionFault::Reciprocal(ReciprocalFault::Foreign(code)) => code,
        DivisionFault::Reciprocal(ReciprocalFault::NoReciprocal(code)) => code,
        DivisionFault::Uneven => 0,
    }
}
