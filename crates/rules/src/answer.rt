// What an accepted offer and a run answer.
use crate::refusal::Refusal;

// The answer to an accepted offer: the degree of the image, and how many points this offer added to dropped.
#[derive(Clone, Copy, Debug, PartialEq, Eq)]
pub enum Answer {
    // The job is settled.
    Settled { degree: u64, dropped: u64 },
    // The test failed, and all held points were let go.
    Overturned { degree: u64, dropped: u64 },
    // Held points of a higher degree were let go, and this one is held.
    Lowered { degree: u64, dropped: u64 },
    // The point is held.
    Held { degree: u64, dropped: u64 },
}

// What a run answers: how many points it drew, and whether it settled the job or why it stopped.
#[derive(Clone, Copy, Debug, PartialEq, Eq)]
pub struct Ran {
    pub drawn: u64,
    pub ending: Result<(), Refusal>,
}
