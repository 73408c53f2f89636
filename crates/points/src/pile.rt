// The standard pile: a shift over a supplied list and then all elements.
ghost use Rattle.std.specs.Prelude.{◌≡◌};
ghost use Rattle.points.specs.Waiting.{counting_from, piled};

use crate::chain::Chain;
use crate::counting::Counting;
use crate::shift::Shift;
use crate::source::Source;
use crate::supplied::Supplied;
use coefficients::listed::Listed;

pub type Pile<'a, K> = Shift<K, Chain<Supplied<'a>, Counting<K>>>;

pub fn standard_pile<'a, K: Listed + Copy>(kind: K, by: u64, codes: &'a [u64]) -> Pile<'a, K>
    ensures { ⟦<Pile<'a, K> as Source>⟧.waiting result ≡ piled (K.Coefficients.arithmetic kind) by codes.now (counting_from (K.Listed.nth kind) (K.Listed.count kind) 0) }
{
    Shift::new(
        kind,
        by,
        Chain::new(Supplied::new(codes), Counting::new(kind)),
    )
}
