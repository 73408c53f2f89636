// The images of two polynomials at points.
ghost use Rattle.std.specs.Prelude.{◌≡◌, ◌*◌, ◌≤◌, length};

// Points, and 16 codes of each image at every one of them. The codes of one image lie together, since joining reads them as one slice.
#[derive(Clone, Copy)]
pub struct Images<'a> {
    pub points: &'a [u64],
    pub divisors: &'a [u64],
    pub lefts: &'a [u64],
    pub rights: &'a [u64],
    ghost few: { length points.now ≤ 31 },
    ghost divisors_long: { length divisors.now ≡ 16 * length points.now },
    ghost lefts_long: { length lefts.now ≡ 16 * length points.now },
    ghost rights_long: { length rights.now ≡ 16 * length points.now },
}
