//! Rings and polynomials in one unknown over a field, as mathematics that the contracts of other crates cite.
#![tactic(auto)]

ghost use Rattle.algebra.specs.Field.{Field};
ghost use Rattle.algebra.specs.OneUnknown.{Evaluation, Division, Degrees, Gcd};
ghost use Rattle.algebra.specs.TwoElements.{two_elements};

// A type whose values are the elements of a field.
pub trait Scalar {
    ghost field: { Field Self };
}

// The field of two elements.
impl Scalar for bool {
    ghost field = { two_elements };
}

// Evaluation at a point respects sums and products, and a polynomial that is not zero has fewer roots than its size.
pub fn evaluation_stands<S: Scalar>()
    ensures { Evaluation S.field }
{}

// Division with remainder has exactly one answer.
pub fn division_stands<S: Scalar>()
    ensures { Division S.field }
{}

// The degree of a product is the sum of the degrees, and its leading coefficient the product of the leading coefficients.
pub fn degrees_stand<S: Scalar>()
    ensures { Degrees S.field }
{}

// Two polynomials have exactly one normal greatest common divisor, and it is a combination of them.
pub fn gcd_stands<S: Scalar>()
    ensures { Gcd S.field }
{}

#[cfg(test)]
mod tests {
    use super::*;

    #[test]
    fn theorems_stand_over_two_elements() {
        evaluation_stands::<bool>();
        division_stands::<bool>();
        degrees_stand::<bool>();
        gcd_stands::<bool>();
    }
}
