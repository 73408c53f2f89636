// 16 rows of `width` codes that stand one after the other: the i-th has the coefficients of x^i.
ghost use Rattle.std.specs.Prelude.{◌≡◌, ℕ, List, slice_index_or, ◌+◌, ◌*◌, ◌<◌, ◌≤◌, length};
ghost use Rattle.std.specs.Borrow.{Bor};
ghost use Rattle.polynomials.specs.Rows.{cut_row};

// A view of the rows of a polynomial in x and y.
#[derive(Clone, Copy)]
pub struct Rows<'a> {
    pub codes: &'a [u64],
    pub width: usize,
    ghost sixteen: { length codes.now ≡ 16 * width },
    ghost narrow: { width ≤ 32 },
}

// Where the i-th row begins.
pub fn row_start(width: usize, i: usize) -> usize
    requires narrow { width ≤ 32 }
    requires within { i < 16 }
    ensures place { result ≡ width * i }
    ensures within { result + width ≤ 16 * width }
{
    width * i
}

impl<'a> Rows<'a> {
    pub fn new(codes: &'a [u64], width: usize) -> Rows<'a>
        requires sixteen { length codes.now ≡ 16 * width }
        requires narrow { width ≤ 32 }
        ensures codes { result.codes.now ≡ codes.now }
        ensures width { result.width ≡ width }
    {
        Rows { codes, width }
    }

    // The i-th row.
    pub fn row(&self, i: usize) -> &'a [u64]
        requires { i < 16 }
        ensures codes { result.now ≡ cut_row self.now.width self.now.codes.now i }
        ensures width { length result.now ≡ self.now.width }
    {
        let start = row_start(self.width, i);
        &self.codes[start..start + self.width]
    }

    // The rows in order.
    pub fn each(&self) -> [&'a [u64]; 16]
        ensures codes { (i : ℕ) (d : Bor (List ℕ)) → i < 16 → (slice_index_or result i d).now ≡ cut_row self.now.width self.now.codes.now i }
        ensures width { (i : ℕ) (d : Bor (List ℕ)) → i < 16 → length (slice_index_or result i d).now ≡ self.now.width }
    {
        std::array::from_fn(|i| self.row(i))
    }
}
