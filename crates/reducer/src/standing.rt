// What a job is.
use rules::refusal::Refusal;

#[derive(Clone, Copy, Debug, PartialEq, Eq)]
pub enum Standing {
    // It takes points.
    Gathering,
    // It takes no more points, and the answer can be collected.
    Settled,
    // It keeps the refusal that made it void, and answers it to every call.
    Void(Refusal),
}
