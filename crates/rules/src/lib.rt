// The rules of a job: answers, refusals and counts, what an offer and a run do, and the law over all lists of calls.
#![tactic(auto)]

ghost use Rattle.rules.specs.Law.{Law};
ghost use Rattle.rules.specs.Examples.{Examples};

pub mod answer;
pub mod counts;
pub mod refusal;

// Over every pair of polynomials whose answers are lawful, and after every list of calls: when the job is settled, what it counts, what it
// holds, and how far its runs draw.
pub fn law_stands()
    ensures { Law }
{}

// Two lawful pairs, one over no field, a void job and a full one, and what the rules answer there.
pub fn examples_stand()
    ensures { Examples }
{}

#[cfg(test)]
mod tests {
    use super::*;
    use crate::refusal::Refusal;

    #[test]
    fn theorems_stand_and_refusals_are_numbered(rt: HostRuntime) {
        law_stands();
        examples_stand();
        assert_eq!(rt; Refusal::Settled { point: 0 }.number(), 14);
        assert_eq!(rt; Refusal::Modulus { modulus: 1 }.number(), 4);
    }

    #[test]
    fn a_refusal_shows_its_numbers(rt: HostRuntime) {
        let high = Refusal::High {
            point: 7,
            degree: 3,
        };
        assert_eq!(rt; high.fields().as_slice()[1], 3);
    }
}
