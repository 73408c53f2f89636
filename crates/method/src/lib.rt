//! The rules of a job for two polynomials in x and y: what is answered of them makes the rules hold, and what a settled job holds gives their greatest common divisor.
#![tactic(auto)]

ghost use Rattle.method.specs.Method.{Method};

use algebra::Scalar;

// Over every field, for any two polynomials but zero and after every list of calls: when a job is settled, what it counts, how many points it
// can need, how far its runs draw, and that what is collected from it is the monic greatest common divisor with its cofactors.
pub fn method_stands<S: Scalar>()
    ensures { Method S.field }
{}

#[cfg(test)]
mod tests {
    use super::*;

    #[test]
    fn method_stands_over_two_elements() {
        method_stands::<bool>();
    }
}
