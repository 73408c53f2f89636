// Kinds that list their elements.
ghost use Rattle.std.specs.Prelude.{◌≡◌, ℕ, nat_lt};
ghost use Rattle.coefficients.specs.Listing.{Listing, when};

use crate::kind::Coefficients;

pub trait Listed: Coefficients {
    ghost count: { Self → ℕ };

    ghost nth: { Self → ℕ → ℕ };

    ghost place: { Self → ℕ → ℕ };

    // How many elements there are.
    fn count(&self) -> u64
        ensures { result ≡ count self.now };

    // The element at a place, counted from 0, or nothing past the last.
    fn nth(&self, n: u64) -> Option<u64>
        ensures { result ≡ when (nat_lt n (count self.now)) (nth self.now n) };

    // The place of an element, or nothing for another code.
    fn place(&self, code: u64) -> Option<u64>
        ensures { result ≡ when ((Self.Coefficients.arithmetic self.now).element code) (place self.now code) };

    ghost listing: { (k : Self) → Listing (Self.Coefficients.arithmetic k).element (count k) (nth k) (place k) };
}
