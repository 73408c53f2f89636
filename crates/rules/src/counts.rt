// The counts of a job.
ghost use Rattle.std.specs.Prelude.{◌≡◌};
ghost use Rattle.rules.specs.Numbers.{count_list};

// `offered` counts the points offered; the others say what came of them, each in one class.
#[derive(Clone, Copy, Debug, Default, PartialEq, Eq)]
pub struct Counts {
    pub offered: u64,
    // No elements.
    pub foreign: u64,
    // Equal to a held point.
    pub repeated: u64,
    // Where γ is zero.
    pub vanishing: u64,
    // With an image of too high a degree.
    pub high: u64,
    // After the job was settled.
    pub late: u64,
    // Held once and let go again.
    pub dropped: u64,
    // Held now.
    pub held: u64,
}

// The eight counts, in the order in which they are shown.
impl From<Counts> for [u64; 8] {
    ghost from_gives = { λ counts list. list ≡ count_list counts };

    fn from(counts: Counts) -> [u64; 8] {
        [
            counts.offered,
            counts.foreign,
            counts.repeated,
            counts.vanishing,
            counts.high,
            counts.late,
            counts.dropped,
            counts.held,
        ]
    }
}
