// Why no residues are made.
ghost use Rattle.std.specs.Prelude.{◌≡◌};
ghost use Rattle.coefficients.specs.Refusals.{modulus_refusal};

use rules::refusal::Refusal;

#[derive(Clone, Copy, Debug, PartialEq, Eq)]
pub enum ModulusFault {
    // The modulus is below 2 or above 2147483647.
    OutOfRange(u64),
}

impl From<ModulusFault> for Refusal {
    ghost from_gives = { λ e r. r ≡ modulus_refusal e };

    fn from(e: ModulusFault) -> Refusal {
        match e {
            ModulusFault::OutOfRange(modulus) => Refusal::Modulus { modulus },
        }
    }
}
