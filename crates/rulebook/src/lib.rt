//! The rules of a job for two tables of codes over a kind of coefficient: definitions that compute, for contracts to cite, proved to be what the theory says of the polynomials that the tables mean.
#![tactic(auto)]

ghost use Rattle.rulebook.specs.Pairs.{PairsRight};
ghost use Rattle.rulebook.specs.Opening.{OpeningAnswers, OpeningLaw};
ghost use Rattle.rulebook.specs.Law.{LawOver};
ghost use Rattle.rulebook.specs.Cases.{AllHold};

use coefficients::kind::Coefficients;

// Over a field, what is computed for a job on two tables of elements is so of the polynomials that they mean.
pub fn pairs_stand<K: Coefficients>(kind: &K)
    ensures { PairsRight (K.arithmetic kind.now) }
{}

// Which refusal an opening answers, and when it answers none.
pub fn openings_stand<K: Coefficients>(kind: &K, a: &[u64], b: &[u64])
    ensures { OpeningAnswers (K.arithmetic kind.now) a.now b.now }
{}

// Over a field: which tables are refused, and what holds of a job for all others, after every list of calls. It says when the job is settled,
// what it counts, how many points it can need, how far its runs draw, and that what is collected from it is the monic greatest common divisor
// with its cofactors.
pub fn law_stands<K: Coefficients>(kind: &K, a: &[u64], b: &[u64])
    ensures refusals { OpeningLaw (K.arithmetic kind.now) a.now b.now }
    ensures law { LawOver (K.arithmetic kind.now) a.now b.now }
{}

// What comes of some jobs, by computing.
pub fn cases_stand()
    ensures { AllHold }
{}

#[cfg(test)]
mod tests {
    use super::*;
    use coefficients::residues::*;
    use std::test::Fail;

    #[test]
    fn rules_stand_modulo_11() -> Result<(), Fail> {
        let eleven = Residues::new(11)?;
        let table = [1u64; 256];
        pairs_stand(&eleven);
        openings_stand(&eleven, &table, &table);
        law_stands(&eleven, &table, &table);
        cases_stand();
        Ok(())
    }
}
