// Moduli that are proved to be prime, so that their residues are a field.
ghost use Rattle.std.specs.Prelude.{◌≡◌};
ghost use Rattle.coefficients.specs.Prime.{Prime, known_modulus};

#[derive(Clone, Copy, Debug, PartialEq, Eq)]
pub enum KnownPrime {
    // The modulus of the program's first pair.
    Eleven,
    LargestModulus,
}

impl KnownPrime {
    pub fn modulus(self) -> u64
        ensures value { result ≡ known_modulus self }
        ensures prime { Prime result }
    {
        match self {
            KnownPrime::Eleven => 11,
            KnownPrime::LargestModulus => 2147483647,
        }
    }
}
