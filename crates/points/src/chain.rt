// One source and then another.
ghost use Rattle.std.specs.Prelude.{◌≡◌, ◌++◌};

use crate::source::Source;

#[derive(Drop)]
pub struct Chain<A, B> {
    first: A,
    second: B,
}

impl<A: Source, B: Source> Chain<A, B> {
    pub fn new(first: A, second: B) -> Chain<A, B>
        ensures { ⟦<Chain<A, B> as Source>⟧.waiting result ≡ A.Source.waiting first ++ B.Source.waiting second }
    {
        Chain { first, second }
    }
}

impl<A: Source, B: Source> Source for Chain<A, B> {
    ghost waiting = { λ s. A.Source.waiting s.first ++ B.Source.waiting s.second };

    fn draw(&mut self) -> Option<u64> {
        // Not `or_else`: its contract does not say that a closure which is not called leaves the second source as it was.
        match self.first.draw() {
            Some(code) => Some(code),
            None => self.second.draw(),
        }
    }

    fn any_waiting(&self) -> bool {
        self.first.any_waiting() || self.second.any_waiting()
    }
}
