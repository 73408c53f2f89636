// What two polynomials share, and what each has besides.
ghost use Rattle.std.specs.Prelude.{◌≡◌, replicate};

// Codes of a common divisor of two polynomials, and of both cofactors.
#[derive(Clone, Copy)]
pub struct Factored<const N: usize> {
    pub divisor: [u64; N],
    pub left: [u64; N],
    pub right: [u64; N],
}

impl<const N: usize> Factored<N> {
    pub fn zeros() -> Factored<N>
        ensures divisor { result.divisor ≡ replicate N 0 }
        ensures left { result.left ≡ replicate N 0 }
        ensures right { result.right ≡ replicate N 0 }
    {
        Factored {
            divisor: [0; N],
            left: [0; N],
            right: [0; N],
        }
    }
}
