// Each element of a source, shifted.
ghost use Rattle.std.specs.Prelude.{◌≡◌, map};
ghost use Rattle.points.specs.Waiting.{shifted};

use crate::source::Source;
use coefficients::kind::Coefficients;

#[derive(Drop)]
pub struct Shift<K, S> {
    kind: K,
    by: u64,
    below: S,
}

impl<K: Coefficients, S: Source> Shift<K, S> {
    // Where `by` is no element nothing is shifted.
    pub fn new(kind: K, by: u64, below: S) -> Shift<K, S>
        ensures { ⟦<Shift<K, S> as Source>⟧.waiting result ≡ map (shifted (K.Coefficients.arithmetic kind) by) (S.Source.waiting below) }
    {
        Shift { kind, by, below }
    }
}

// A point shifted by `by`; as it is where one of the two is no element.
fn shift_point<K: Coefficients>(kind: &K, by: u64, point: u64) -> u64
    ensures { result ≡ shifted (K.Coefficients.arithmetic kind.now) by point }
{
    if kind.contains(point) && kind.contains(by) {
        kind.add(point, by)
    } else {
        point
    }
}

impl<K: Coefficients, S: Source> Source for Shift<K, S> {
    ghost waiting = { λ s. map (shifted (K.Coefficients.arithmetic s.kind) s.by) (S.Source.waiting s.below) };

    fn draw(&mut self) -> Option<u64> {
        let code = self.below.draw()?;
        Some(shift_point(&self.kind, self.by, code))
    }

    fn any_waiting(&self) -> bool {
        self.below.any_waiting()
    }
}
