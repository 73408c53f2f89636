// Prepares a pair of tables, sets y to points from a pile, and prints what the images share and what is left of them.
#![tactic(auto)]

mod text;

use anyhow::anyhow;
use coefficients::bytes::Bytes;
use coefficients::kind::Coefficients;
use coefficients::primes::KnownPrime;
use coefficients::residues::Residues;
use points::pile::standard_pile;
use points::source::Source;
use polynomials::divide::divide;
use polynomials::evaluate::image;
use polynomials::faults::RowFault;
use polynomials::gcd::gcd;
use std::io;
use tables::content::take_content;
use tables::lead::lead_gcd;
use tables::rows::Rows;
use text::Notation;

// Two tables over a kind, and how its codes are written: place 16 i + j of a table holds the coefficient of x^i y^j.
#[derive(Clone, Copy)]
struct Pair<K> {
    kind: K,
    notation: Notation,
    a: [u64; 256],
    b: [u64; 256],
}

// A = (y^2 + 3y) x^3 + (y^2 + y + 2) x^2 + (y + 8) x and B = (y^2 + 3y) x^3 + y x^2.
fn residue_pair(kind: Residues) -> Pair<Residues> {
    let mut a = [0; 256];
    a[16] = 8;
    a[17] = 1;
    a[32] = 2;
    a[33] = 1;
    a[34] = 1;
    a[49] = 3;
    a[50] = 1;
    let mut b = [0; 256];
    b[33] = 1;
    b[49] = 3;
    b[50] = 1;
    Pair {
        kind,
        notation: Notation::Decimal,
        a,
        b,
    }
}

// A = x^2 + {57} x y and B = {83} x + {c1} y.
fn byte_pair() -> Pair<Bytes> {
    let mut a = [0; 256];
    a[17] = 0x57;
    a[32] = 1;
    let mut b = [0; 256];
    b[1] = 0xc1;
    b[16] = 0x83;
    Pair {
        kind: Bytes::new(),
        notation: Notation::Hexadecimal,
        a,
        b,
    }
}

// The images of both tables at a point.
#[derive(Clone, Copy)]
struct Images {
    a: [u64; 16],
    b: [u64; 16],
}

// What two images share, by its codes and its degree.
#[derive(Clone, Copy)]
struct Shared {
    codes: [u64; 16],
    degree: usize,
}

impl<K: Coefficients> Pair<K> {
    // A table where y is a point.
    fn image(&self, table: &[u64; 256], point: u64) -> Result<[u64; 16], RowFault> {
        let mut row = [0; 16];
        image(&self.kind, table, point, &mut row)?;
        Ok(row)
    }

    fn images(&self, point: u64) -> Result<Images, RowFault> {
        let a = self.image(&self.a, point)?;
        let b = self.image(&self.b, point)?;
        Ok(Images { a, b })
    }

    fn shared(&self, images: &Images) -> Result<Shared, RowFault> {
        let mut codes = images.a;
        let mut used = images.b;
        let size = gcd(&self.kind, &mut codes, &mut used)?;
        Ok(Shared {
            codes,
            degree: size.saturating_sub(1),
        })
    }

    // The other factor of an image.
    fn cofactor(&self, row: &[u64; 16], by: &[u64; 16]) -> Result<[u64; 16], RowFault> {
        let mut rest = *row;
        let mut quotient = [0; 16];
        divide(&self.kind, &mut rest, by, &mut quotient)?;
        Ok(quotient)
    }
}

impl<K: Coefficients + Copy> Pair<K> {
    // Both tables where y is a point, and what the images share.
    fn print_point(&self, rt: &impl Print, point: u64) -> io::Result<()> {
        println!(rt; "y set to {}:", self.notation.code(point))?;
        match self.images(point) {
            Ok(images) => self.print_images(rt, &images),
            Err(fault) => println!(rt; "  {}", self.notation.fault(fault)),
        }
    }

    fn print_images(&self, rt: &impl Print, images: &Images) -> io::Result<()> {
        println!(rt; "  A' becomes {}", self.notation.row(&images.a, 'x'))?;
        println!(rt; "  B' becomes {}", self.notation.row(&images.b, 'x'))?;
        match self.shared(images) {
            Ok(shared) => {
                println!(rt;
                    "  they share {}, of degree {}",
                    self.notation.row(&shared.codes, 'x'),
                    shared.degree
                )?;
                self.print_cofactor(rt, 'A', &images.a, &shared.codes)?;
                self.print_cofactor(rt, 'B', &images.b, &shared.codes)
            }
            Err(fault) => println!(rt; "  {}", self.notation.fault(fault)),
        }
    }

    fn print_cofactor(
        &self,
        rt: &impl Print,
        name: char,
        row: &[u64; 16],
        by: &[u64; 16],
    ) -> io::Result<()> {
        match self.cofactor(row, by) {
            Ok(codes) => println!(rt;
                "  what is left of {name}: {}",
                self.notation.row(&codes, 'x')
            ),
            Err(fault) => println!(rt; "  {}", self.notation.fault(fault)),
        }
    }

    // Prints γ: what the leading coefficients in x share.
    fn print_gamma(&self, rt: &impl Print) -> io::Result<()> {
        let mut shared = [0; 16];
        let a = Rows::new(&self.a, 16);
        let b = Rows::new(&self.b, 16);
        match lead_gcd(&self.kind, &a, &b, &mut shared) {
            Ok(_) => println!(rt;
                "the leading coefficients of A' and B' share {}",
                self.notation.row(&shared, 'y')
            ),
            Err(_) => println!(rt;
                "the leading coefficients have no greatest common divisor that can be found"
            ),
        }
    }

    // Splits the contents off, and prints what comes of the pair at the first points of a source.
    fn print(mut self, rt: &impl Print, points: &mut impl Source) -> io::Result<()> {
        println!(rt; "A = {}", self.notation.table(&self.a))?;
        println!(rt; "B = {}", self.notation.table(&self.b))?;
        self.a = self.print_content(rt, 'A', &self.a)?;
        self.b = self.print_content(rt, 'B', &self.b)?;
        self.print_gamma(rt)?;
        for _ in 0..5u8 {
            if let Some(point) = points.draw() {
                self.print_point(rt, point)?;
            }
        }
        Ok(())
    }

    // Prints the content of a table; answers the table without it.
    fn print_content(
        &self,
        rt: &impl Print,
        name: char,
        table: &[u64; 256],
    ) -> io::Result<[u64; 256]> {
        let mut content = [0; 16];
        let mut part = [0; 256];
        match take_content(&self.kind, table, 16, &mut content, &mut part) {
            Ok(_) => {
                let row = self.notation.row(&content, 'y');
                let rest = self.notation.table(&part);
                println!(rt; "the content of {name} is {row}, and {name}' = {rest}")?;
                Ok(part)
            }
            Err(_) => {
                println!(rt; "{name} has no content that can be split off")?;
                Ok(*table)
            }
        }
    }
}

fn run(rt: &impl Print) -> anyhow::Result<()> {
    let Ok(residues) = Residues::new(KnownPrime::Eleven.modulus()) else {
        return Err(anyhow!("11 is no modulus"));
    };
    println!(rt; "Residues modulo 11, and a pile of 10, 0, 5, 20 and all residues, shifted by 3.")?;
    let mut pile = standard_pile(residues, 3, &[10, 0, 5, 20]);
    residue_pair(residues).print(rt, &mut pile)?;
    println!(rt; "")?;
    println!(rt; "Bytes in hexadecimal, and a pile of all bytes, not shifted.")?;
    let mut pile = standard_pile(Bytes::new(), 0, &[]);
    byte_pair().print(rt, &mut pile)?;
    Ok(())
}

fn main(rt: HostRuntime) -> anyhow::Result<()> {
    run(&rt)
}
