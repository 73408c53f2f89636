// Products.
ghost use Rattle.polynomials.specs.Product.{FitsRoom, Multiplied};

use crate::rows::{clear, lessen, size};
use coefficients::kind::Coefficients;

// There is no room for the product.
#[derive(Clone, Copy, Debug, PartialEq, Eq)]
pub struct NoRoom;

// Whether the product of polynomials of two sizes has its place in a row.
fn has_room(m: usize, n: usize, room: usize) -> bool
    ensures { FitsRoom m n room result }
{
    m == 0 || n == 0 || (m <= room && n <= room - m + 1)
}

// Writes the product of two rows into `product`; where there is no room for it nothing is written.
pub fn multiply_row<K: Coefficients>(
    kind: &K,
    a: &[u64],
    b: &[u64],
    product: &mut [u64],
) -> Result<(), NoRoom>
    ensures { Multiplied (K.arithmetic kind.now) a.now b.now product.old product.new result }
{
    let terms = size(kind, a);
    let count = size(kind, b);
    if !has_room(terms, count, product.len()) {
        return Err(NoRoom);
    }
    clear(kind, product);
    if count == 0 {
        return Ok(());
    }
    for (i, code) in a[..terms].iter().enumerate() {
        let negative = kind.sub(kind.zero(), *code);
        lessen(kind, product, i, negative, &b[..count]);
    }
    Ok(())
}
