//! Polynomials in x whose coefficients are polynomials in y over a field: contents, Gauss's lemma, greatest common divisors and degrees.
#![tactic(auto)]

ghost use Rattle.bivariate.specs.TwoUnknowns.{Contents, Gauss, Gcds, Degrees};

use algebra::Scalar;

// A polynomial that is not zero is its monic content times a primitive part, in exactly one way.
pub fn contents_stand<S: Scalar>()
    ensures { Contents S.field }
{}

// A product of primitive polynomials is primitive, and a primitive divisor of a multiple by a polynomial in y is a divisor.
pub fn gauss_stands<S: Scalar>()
    ensures { Gauss S.field }
{}

// Two polynomials that are not zero have exactly one monic greatest common divisor with its cofactors.
pub fn gcds_stand<S: Scalar>()
    ensures { Gcds S.field }
{}

// The degrees in x and in y of a product are the sums of the degrees, and its leading coefficient in x is the product of the leading coefficients.
pub fn degrees_stand<S: Scalar>()
    ensures { Degrees S.field }
{}

#[cfg(test)]
mod tests {
    use super::*;

    #[test]
    fn theorems_stand_over_two_elements() {
        contents_stand::<bool>();
        gauss_stands::<bool>();
        gcds_stand::<bool>();
        degrees_stand::<bool>();
    }
}
