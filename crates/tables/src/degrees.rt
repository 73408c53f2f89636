// Sizes of polynomials in x and y, as 16 rows of `width` codes that stand one after the other: the i-th has the coefficients of x^i.
ghost use Rattle.std.specs.Prelude.{ℕ, ◌<◌, slice_index};
ghost use Rattle.polynomials.specs.Rows.{Sized, cut_row};
ghost use Rattle.tables.specs.Degrees.{SizedX, SizeX, SizedY, SizeY};

use crate::rows::Rows;
use coefficients::kind::Coefficients;
use polynomials::rows::size;

impl Rows<'_> {
    // The size of each row.
    fn sizes<K: Coefficients>(&self, kind: &K) -> [usize; 16]
        ensures { (i : ℕ) → i < 16 → Sized (K.arithmetic kind.now) (cut_row self.now.width self.now.codes.now i) (slice_index result i) }
    {
        // By a loop: through the closure of `map` or `from_fn` the proof did not close.
        let mut sizes = [0; 16];
        for (i, row) in self.each().iter().enumerate() {
            sizes[i] = size(kind, row);
        }
        sizes
    }

    // The size in x: one more than the place of the last row that is not zero, or 0.
    pub fn size_x<K: Coefficients>(&self, kind: &K) -> usize
        ensures codes { SizedX (K.arithmetic kind.now) self.now.width self.now.codes.now result }
        ensures size { SizeX (K.arithmetic kind.now) self.now.width self.now.codes.now result }
    {
        // From the last row on, and no further than to one that is not zero.
        // By a loop: the proof did not close through a closure that sizes a row.
        for i in (0..16usize).rev() {
            if size(kind, self.row(i)) > 0 {
                return i + 1;
            }
        }
        0
    }

    // The size in y: the largest size of a row.
    pub fn size_y<K: Coefficients>(&self, kind: &K) -> usize
        ensures codes { SizedY (K.arithmetic kind.now) self.now.width self.now.codes.now result }
        ensures size { SizeY (K.arithmetic kind.now) self.now.width self.now.codes.now result }
    {
        self.sizes(kind).iter().copied().max().unwrap_or(0)
    }
}
