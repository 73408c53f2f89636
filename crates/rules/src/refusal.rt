// Why a call is refused.
ghost use Rattle.std.specs.Prelude.{◌≡◌};
ghost use Rattle.rules.specs.Numbers.{number, table_number, stage_number, fields, named};

use crate::counts::Counts;

// The tables of a job: the two that come in, their greatest common divisor and the two cofactors.
#[derive(Clone, Copy, Debug, PartialEq, Eq)]
pub enum Table {
    A = 1,
    B,
    Divisor,
    CofactorA,
    CofactorB,
}

// Where a reciprocal was wanted: by a call for it alone, in an opening, in an offer.
#[derive(Clone, Copy, Debug, PartialEq, Eq)]
pub enum Stage {
    Alone,
    Opening,
    Offer,
}

#[derive(Clone, Copy, Debug, PartialEq, Eq)]
pub enum Refusal {
    // A table that does not have 256 codes.
    Length {
        table: Table,
        length: usize,
    },
    // A code in a table that is no element.
    ForeignCode {
        table: Table,
        place: usize,
        code: u64,
    },
    // A point, or a code handed in by itself, that is no element.
    ForeignPoint {
        point: u64,
    },
    // A table of zeros.
    Zero {
        table: Table,
    },
    // A modulus outside 2 to 2147483647.
    Modulus {
        modulus: u64,
    },
    // An element that has no reciprocal, or 0 where a division that must come out even did not: the rules name the number 0 there.
    NoField {
        element: u64,
        stage: Stage,
    },
    // A point equal to a held one.
    Repeated {
        point: u64,
    },
    // A point where γ is zero.
    Vanishing {
        point: u64,
    },
    // A point whose image has too high a degree.
    High {
        point: u64,
        degree: u64,
    },
    // The job is settled already; a run names point 0, by the rules.
    Settled {
        point: u64,
    },
    // No offer is taken any more.
    Full(Counts),
    // A run's draws are spent.
    Spent(Counts),
    // A run's source is empty.
    Empty(Counts),
    // The job is not settled, so that nothing can be collected.
    Short(Counts),
}

// The numbers that a refusal names.
#[derive(Clone, Copy, Debug, PartialEq, Eq)]
pub enum Fields {
    Nothing,
    One([u64; 1]),
    Two([u64; 2]),
    Three([u64; 3]),
    Counts([u64; 8]),
}

impl Fields {
    pub fn as_slice(&self) -> &[u64]
        ensures { result.now ≡ named self.now }
    {
        match self {
            Fields::Nothing => &[],
            Fields::One(numbers) => numbers,
            Fields::Two(numbers) => numbers,
            Fields::Three(numbers) => numbers,
            Fields::Counts(numbers) => numbers,
        }
    }
}

// The number of a table.
impl From<Table> for u64 {
    ghost from_gives = { λ table n. n ≡ table_number table };

    fn from(table: Table) -> u64 {
        table as u64
    }
}

// The number of a stage.
impl From<Stage> for u64 {
    ghost from_gives = { λ stage n. n ≡ stage_number stage };

    fn from(stage: Stage) -> u64 {
        stage as u64
    }
}

impl Refusal {
    // The number of this refusal.
    pub fn number(&self) -> u64
        ensures { result ≡ number self.now }
    {
        match self {
            Refusal::Length { .. } => 1,
            Refusal::ForeignCode { .. } | Refusal::ForeignPoint { .. } => 2,
            Refusal::Zero { .. } => 3,
            Refusal::Modulus { .. } => 4,
            Refusal::NoField { .. } => 5,
            Refusal::Repeated { .. } => 11,
            Refusal::Vanishing { .. } => 12,
            Refusal::High { .. } => 13,
            Refusal::Settled { .. } => 14,
            Refusal::Full(_) => 15,
            Refusal::Spent(_) => 16,
            Refusal::Empty(_) => 17,
            Refusal::Short(_) => 18,
        }
    }

    // What this refusal names, in the order in which it is shown.
    pub fn fields(&self) -> Fields
        ensures { named result ≡ fields self.now }
    {
        match *self {
            Refusal::Length { table, length } => Fields::Two([table.into(), length as u64]),
            Refusal::ForeignCode { table, place, code } => {
                Fields::Three([table.into(), place as u64, code])
            }
            Refusal::ForeignPoint { point } => Fields::Three([0, 0, point]),
            Refusal::Zero { table } => Fields::One([table.into()]),
            Refusal::Modulus { .. } => Fields::Nothing,
            Refusal::NoField { element, stage } => Fields::Two([element, stage.into()]),
            Refusal::Repeated { point }
            | Refusal::Vanishing { point }
            | Refusal::Settled { point } => Fields::One([point]),
            Refusal::High { point, degree } => Fields::Two([point, degree]),
            Refusal::Full(counts)
            | Refusal::Spent(counts)
            | Refusal::Empty(counts)
            | Refusal::Short(counts) => Fields::Counts(counts.into()),
        }
    }
}
