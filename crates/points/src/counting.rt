// All elements of a listed kind, in their order.
ghost use Rattle.std.specs.Prelude.{◌≡◌, min};
ghost use Rattle.points.specs.Waiting.{counting_from, InPlaces};

use crate::source::Source;
use coefficients::listed::Listed;
use std::ops::Range;

// The places that are left.
#[derive(Drop)]
pub struct Counting<K> {
    kind: K,
    places: Range<u64>,
}

impl<K: Listed> Counting<K> {
    pub fn new(kind: K) -> Counting<K>
        ensures waiting { ⟦<Counting<K> as Source>⟧.waiting result ≡ counting_from (K.Listed.nth kind) (K.Listed.count kind) 0 }
        ensures places { InPlaces (K.Listed.nth kind) (K.Listed.count kind) (⟦<Counting<K> as Source>⟧.waiting result) }
    {
        let places = 0..kind.count();
        Counting { kind, places }
    }
}

impl<K: Listed> Source for Counting<K> {
    ghost waiting = { λ s. counting_from (K.Listed.nth s.kind) (min s.places.end (K.Listed.count s.kind)) s.places.start };

    fn draw(&mut self) -> Option<u64> {
        let place = self.places.next()?;
        self.kind.nth(place)
    }

    fn any_waiting(&self) -> bool {
        self.places.start < self.places.end.min(self.kind.count())
    }
}
