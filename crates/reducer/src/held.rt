// Writing the images at a held point.
ghost use Rattle.std.specs.Prelude.{◌<◌};
ghost use Rattle.reducer.specs.Held.{Placed, Written};

use steps::factored::Factored;

// Writes a row of 16 codes into a place.
fn put_row(rows: &mut [u64; 496], place: usize, row: &[u64; 16])
    requires { place < 31 }
    ensures { Placed rows.old place row.now rows.new }
{
    rows[16 * place..16 * place + 16].copy_from_slice(row);
}

// Writes the images at a point into a place.
pub fn put_images(images: &mut Factored<496>, place: usize, rows: &Factored<16>)
    requires { place < 31 }
    ensures { Written images.old place rows.now images.new }
{
    put_row(&mut images.divisor, place, &rows.divisor);
    put_row(&mut images.left, place, &rows.left);
    put_row(&mut images.right, place, &rows.right);
}
