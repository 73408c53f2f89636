// How an offer is counted.
ghost use Rattle.std.specs.Prelude.{◌≡◌, ◌+◌, ◌<◌, ◌≤◌};
ghost use Rattle.reducer.specs.Room.{classes};
ghost use Rattle.reducer.specs.State.{tally_of, tallied};
ghost use Rattle.rules.specs.Job.{limit};
ghost use Rattle.rules.specs.Offer.{raised};

use rules::counts::Counts;

// The classes in which an offer changes nothing but a count. A type and no closure that raises a count: contracts
// say by `tallied` what a class raises, and a closure has no name that they could cite.
#[derive(Clone, Copy, Debug, PartialEq, Eq)]
pub enum Tallied {
    Foreign,
    Repeated,
    Vanishing,
    High,
    Late,
}

// One more offer, in a class.
pub fn tally(counts: Counts, class: Tallied) -> Counts
    requires room { counts.offered < limit }
    requires classed { classes counts ≤ counts.offered }
    ensures tally { tally_of result ≡ tallied class (tally_of counts) }
    ensures held { result.held ≡ counts.held }
    ensures classed { classes result ≤ result.offered }
    ensures limited { result.offered ≤ limit }
{
    let mut now = counts;
    now.offered += 1;
    match class {
        Tallied::Foreign => now.foreign += 1,
        Tallied::Repeated => now.repeated += 1,
        Tallied::Vanishing => now.vanishing += 1,
        Tallied::High => now.high += 1,
        Tallied::Late => now.late += 1,
    }
    now
}

// One more offer, after which so many points were let go and so many are held.
pub fn accept(counts: Counts, gone: u64, held: u64) -> Counts
    requires room { counts.offered < limit }
    requires classed { classes counts ≤ counts.offered }
    requires fewer { gone + held ≤ counts.held + 1 }
    ensures tally { tally_of result ≡ raised (tally_of counts) 0 0 0 0 0 gone }
    ensures held { result.held ≡ held }
    ensures classed { classes result ≤ result.offered }
    ensures limited { result.offered ≤ limit }
{
    let mut now = counts;
    now.offered += 1;
    now.dropped += gone;
    now.held = held;
    now
}
