// The codes that were handed in, in order.
ghost use Rattle.std.specs.Prelude.{◌≡◌};

use crate::source::Source;

// The codes that are left.
#[derive(Drop)]
pub struct Supplied<'a> {
    codes: &'a [u64],
}

impl<'a> Supplied<'a> {
    // Foreign and repeated codes wait as all others do.
    pub fn new(codes: &'a [u64]) -> Supplied<'a>
        ensures { ⟦<Supplied<'a> as Source>⟧.waiting result ≡ codes.now }
    {
        Supplied { codes }
    }
}

impl Source for Supplied<'_> {
    ghost waiting = { λ s. s.codes.now };

    fn draw(&mut self) -> Option<u64> {
        let (first, rest) = self.codes.split_first()?;
        self.codes = rest;
        Some(*first)
    }

    fn any_waiting(&self) -> bool {
        !self.codes.is_empty()
    }
}
