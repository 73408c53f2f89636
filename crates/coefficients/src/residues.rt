// The residues modulo a number.
ghost use Rattle.std.specs.Prelude.{◌≡◌, ◌*◌, ◌%◌, ◌<◌, ◌≤◌, ◌↔◌, IsOk, IfOk, IfErr};
ghost use Rattle.coefficients.specs.Arithmetic.{IsField};
ghost use Rattle.coefficients.specs.Prime.{Prime};
ghost use Rattle.coefficients.specs.Residue.{modulo};
ghost use Rattle.coefficients.specs.declared.modulus.ModulusFault.TheVariants.{OutOfRange};
ghost use Rattle.coefficients.specs.BelowLemmas.{codes_to_largest, own_places};
ghost use Rattle.coefficients.specs.Modular.{modulo_laws};

use crate::kind::{Coefficients, ReciprocalFault};
use crate::listed::Listed;
use crate::modulus::ModulusFault;

#[derive(Clone, Copy)]
pub struct Residues {
    modulus: u64,
    ghost low: { 2 ≤ modulus },
    ghost high: { modulus ≤ 2147483647 },
}

impl Residues {
    // The residues modulo a number from 2 to 2147483647. They are a field exactly when it is prime; that is not tested.
    pub fn new(modulus: u64) -> Result<Residues, ModulusFault>
        ensures range { IsOk result ↔ ((2 ≤ modulus) × (modulus ≤ 2147483647)) }
        ensures taken { IfOk result (λ k. k.modulus ≡ modulus) }
        ensures refused { IfErr result (λ e. e ≡ OutOfRange modulus) }
        ensures field { IfOk result (λ k. Prime modulus ↔ IsField (modulo modulus)) }
    {
        if !(2..=2147483647).contains(&modulus) {
            return Err(ModulusFault::OutOfRange(modulus));
        }
        Ok(Residues { modulus })
    }
}

// A number below twice the modulus, reduced.
fn reduced(n: u64, modulus: u64) -> u64
    requires { n < 2 * modulus }
    ensures { result ≡ n % modulus }
{
    if n < modulus { n } else { n - modulus }
}

// One more product, where the sum of products is kept below the square of the modulus and not reduced.
fn gather(modulus: u64, total: u64, x: u64, y: u64) -> u64
    requires low { 2 ≤ modulus }
    requires high { modulus ≤ 2147483647 }
    requires kept { total < modulus * modulus }
    ensures below { result < modulus * modulus }
    ensures same { result % modulus ≡ (modulo modulus).sum ((modulo modulus).product x y) (total % modulus) }
{
    if x < modulus && y < modulus {
        reduced(total + x * y, modulus * modulus)
    } else {
        total
    }
}

impl Coefficients for Residues {
    const LARGEST: u64 = 2147483646;

    ghost LARGEST = { 2147483646 };

    ghost arithmetic = { λ k. modulo k.modulus };

    ghost laws = { λ k. modulo_laws k.modulus k.low };

    ghost small = { λ k. codes_to_largest k.modulus 2147483646 k.high };

    fn contains(&self, code: u64) -> bool {
        code < self.modulus
    }

    fn zero(&self) -> u64 {
        0
    }

    fn one(&self) -> u64 {
        1
    }

    fn add(&self, a: u64, b: u64) -> u64 {
        if a < self.modulus && b < self.modulus {
            reduced(a + b, self.modulus)
        } else {
            0
        }
    }

    fn sub(&self, a: u64, b: u64) -> u64 {
        if a < self.modulus && b < self.modulus {
            reduced(a + self.modulus - b, self.modulus)
        } else {
            0
        }
    }

    fn mul(&self, a: u64, b: u64) -> u64 {
        if a < self.modulus && b < self.modulus {
            a * b % self.modulus
        } else {
            0
        }
    }

    // Euclid's algorithm on the modulus and a, with the factor of a kept beside each remainder.
    fn reciprocal(&self, a: u64) -> Result<u64, ReciprocalFault> {
        if a >= self.modulus {
            return Err(ReciprocalFault::Foreign(a));
        }
        let p = self.modulus;
        let mut r0 = p;
        let mut r1 = a;
        let mut s0 = 0;
        let mut s1 = 1;
        while r1 != 0 {
            (s0, s1) = (s1, (s0 + p - (r0 / r1) * s1 % p) % p);
            (r0, r1) = (r1, r0 % r1);
        }
        if r0 == 1 {
            Ok(s0)
        } else {
            Err(ReciprocalFault::NoReciprocal(a))
        }
    }

    // With one division, at the end.
    fn dot(&self, xs: &[u64], ys: &[u64]) -> u64 {
        let mut total = 0;
        for (x, y) in xs.iter().zip(ys) {
            total = gather(self.modulus, total, *x, *y);
        }
        total % self.modulus
    }
}

// The n-th residue is n.
impl Listed for Residues {
    ghost count = { λ k. k.modulus };

    ghost nth = { λ k n. n };

    ghost place = { λ k c. c };

    ghost listing = { λ k. own_places k.modulus };

    fn count(&self) -> u64 {
        self.modulus
    }

    fn nth(&self, n: u64) -> Option<u64> {
        (n < self.modulus).then_some(n)
    }

    fn place(&self, code: u64) -> Option<u64> {
        (code < self.modulus).then_some(code)
    }
}
