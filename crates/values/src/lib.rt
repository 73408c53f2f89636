//! Values of polynomials in one and two unknowns, computed on lists of codes: gcd, content, image, exact quotient, join. They are definitions for contracts to cite, proved to be what the theory says, over every kind of coefficient.
#![tactic(auto)]

ghost use Rattle.values.specs.Theorems.{Values};
ghost use Rattle.values.specs.RowTheorems.{RowsHold};
ghost use Rattle.values.specs.Examples.{Examples};

use coefficients::kind::Coefficients;

// What is computed on lists of codes is what the theory says of the polynomials that they mean, and nothing else is.
pub fn values_stand<K: Coefficients>(kind: &K)
    ensures { Values (K.arithmetic kind.now) }
{}

// 16 rows of codes of any width have one list of trimmed rows, and rows that have the relations of `tables` hold the values, up to zeros at the end.
pub fn rows_stand<K: Coefficients>(kind: &K)
    ensures { RowsHold (K.arithmetic kind.now) }
{}

// The definitions compute.
pub fn examples_stand()
    ensures { Examples }
{}

#[cfg(test)]
mod tests {
    use super::*;
    use coefficients::bytes::*;
    use coefficients::residues::*;
    use std::test::Fail;

    #[test]
    fn values_stand_modulo_11_and_over_bytes() -> Result<(), Fail> {
        let eleven = Residues::new(11)?;
        values_stand(&eleven);
        values_stand(&Bytes::new());
        examples_stand();
        Ok(())
    }

    #[test]
    fn rows_stand_over_bytes() {
        rows_stand(&Bytes::new());
    }
}
