// What a kind of coefficient is.
ghost use Rattle.std.specs.Prelude.{◌≡◌, ℕ, ◌≤◌, true};
ghost use Rattle.coefficients.specs.Arithmetic.{Arithmetic, Laws};
ghost use Rattle.coefficients.specs.Reciprocal.{Reciprocal};
ghost use Rattle.coefficients.specs.Refusals.{reciprocal_refusal};
ghost use Rattle.coefficients.specs.Dot.{dot_of};

use rules::refusal::{Refusal, Stage};

// Why a code has no reciprocal: it is no element, or an element that lacks one.
#[derive(Clone, Copy, Debug, PartialEq, Eq)]
pub enum ReciprocalFault {
    Foreign(u64),
    NoReciprocal(u64),
}

// The refusal that a call for a reciprocal by itself answers.
impl From<ReciprocalFault> for Refusal {
    ghost from_gives = { λ e r. r ≡ reciprocal_refusal e };

    fn from(e: ReciprocalFault) -> Refusal {
        match e {
            ReciprocalFault::Foreign(code) => Refusal::ForeignPoint { point: code },
            ReciprocalFault::NoReciprocal(code) => Refusal::NoField {
                element: code,
                stage: Stage::Alone,
            },
        }
    }
}

// A kind of coefficient. Its elements are written as codes, one for each element.
pub trait Coefficients {
    // The largest code that the kind ever uses.
    const LARGEST: u64;

    ghost LARGEST: { ℕ };

    ghost arithmetic: { Self → Arithmetic };

    // Whether a code is an element's.
    fn contains(&self, code: u64) -> bool
        ensures { result ≡ (arithmetic self.now).element code };

    fn zero(&self) -> u64
        ensures { result ≡ (arithmetic self.now).zero };

    fn one(&self) -> u64
        ensures { result ≡ (arithmetic self.now).one };

    fn add(&self, a: u64, b: u64) -> u64
        ensures { result ≡ (arithmetic self.now).sum a b };

    fn sub(&self, a: u64, b: u64) -> u64
        ensures { result ≡ (arithmetic self.now).difference a b };

    fn mul(&self, a: u64, b: u64) -> u64
        ensures { result ≡ (arithmetic self.now).product a b };

    fn reciprocal(&self, a: u64) -> Result<u64, ReciprocalFault>
        ensures { Reciprocal (arithmetic self.now) a result };

    // The sum of the products at each place, over the shorter length. A kind may reduce it in its own way.
    fn dot(&self, xs: &[u64], ys: &[u64]) -> u64
        ensures { result ≡ dot_of (arithmetic self.now) xs.now ys.now }
    {
        xs.iter().zip(ys).fold(
            self.zero(),
            |total, (x, y)| self.add(self.mul(*x, *y), total),
        )
    }

    ghost laws: { (k : Self) → Laws (arithmetic k) };

    ghost small: { (k : Self) (c : ℕ) → (arithmetic k).element c ≡ true → c ≤ LARGEST };
}
