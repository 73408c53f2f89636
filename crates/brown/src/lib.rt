//! Greatest common divisors of polynomials in x and y by images at points: lucky points, joining, the test that ends it, and how many points it can need.
#![tactic(auto)]

ghost use Rattle.brown.specs.Theorems.{Preparation, Interpolation, Images, Test, Bound};

use algebra::Scalar;

// Two polynomials that are not zero are prepared in exactly one way.
pub fn preparation_stands<S: Scalar>()
    ensures { Preparation S.field }
{}

// Values at different points are those of exactly one polynomial with no more coefficients than points.
pub fn interpolation_stands<S: Scalar>()
    ensures { Interpolation S.field }
{}

// The greatest common divisor of the images at a point has the least degree exactly if the point is lucky.
pub fn images_stand<S: Scalar>()
    ensures { Images S.field }
{}

// What is joined from enough images of one degree passes the test exactly if it gives the greatest common divisor.
pub fn test_stands<S: Scalar>()
    ensures { Test S.field }
{}

// Few elements are not lucky.
pub fn bound_stands<S: Scalar>()
    ensures { Bound S.field }
{}

#[cfg(test)]
mod tests {
    use super::*;

    #[test]
    fn theorems_stand_over_two_elements() {
        preparation_stands::<bool>();
        interpolation_stands::<bool>();
        images_stand::<bool>();
        test_stands::<bool>();
        bound_stands::<bool>();
    }
}
