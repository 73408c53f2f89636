// What a source of points is.
ghost use Rattle.std.specs.Prelude.{◌≡◌, ℕ, List};
ghost use Rattle.points.specs.Waiting.{Drawn, some_left};

// A source means the list of codes that wait in it.
pub trait Source {
    ghost waiting: { Self → List ℕ };

    // The next code, which then waits no more; nothing exactly where none waits.
    fn draw(&mut self) -> Option<u64>
        ensures { Drawn (waiting self.old) (waiting self.new) result };

    fn any_waiting(&self) -> bool
        ensures { result ≡ some_left (waiting self.now) };
}

// A source that is lent is a source.
impl<S: Source> Source for &mut S {
    ghost waiting = { λ s. S.Source.waiting s.now };

    fn draw(&mut self) -> Option<u64> {
        (**self).draw()
    }

    fn any_waiting(&self) -> bool {
        (**self).any_waiting()
    }
}
