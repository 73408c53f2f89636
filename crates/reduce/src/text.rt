// Polynomials and refusals as people read them.
use coefficients::kind::ReciprocalFault;
use polynomials::faults::RowFault;
use std::fmt;

// How codes are written: as numbers, or as bytes in braces.
#[derive(Clone, Copy, Debug, PartialEq, Eq)]
pub enum Notation {
    Decimal,
    Hexadecimal,
}

impl Notation {
    pub fn code(self, code: u64) -> Code {
        Code {
            code,
            notation: self,
        }
    }

    pub fn row(self, codes: &[u64], unknown: char) -> Row<'_> {
        Row {
            codes,
            unknown,
            notation: self,
        }
    }

    pub fn table(self, codes: &[u64]) -> Table<'_> {
        Table {
            codes,
            notation: self,
        }
    }

    pub fn fault(self, fault: RowFault) -> Refused {
        Refused {
            fault,
            notation: self,
        }
    }
}

#[derive(Clone, Copy)]
pub struct Code {
    code: u64,
    notation: Notation,
}

impl fmt::Display for Code {
    fn fmt<W: fmt::Write>(&self, f: &mut fmt::Formatter<W>) -> fmt::Result {
        let code = self.code;
        match self.notation {
            Notation::Decimal => write!(f, "{code}"),
            Notation::Hexadecimal => write!(f, "{{{code:02x}}}"),
        }
    }
}

// A power of an unknown; nothing where it is the zeroth.
#[derive(Clone, Copy)]
struct Power {
    unknown: char,
    exponent: usize,
}

impl fmt::Display for Power {
    fn fmt<W: fmt::Write>(&self, f: &mut fmt::Formatter<W>) -> fmt::Result {
        let unknown = self.unknown;
        match self.exponent {
            0 => Ok(()),
            1 => write!(f, "{unknown}"),
            exponent => write!(f, "{unknown}^{exponent}"),
        }
    }
}

// How many coefficients are not zero.
fn terms(codes: &[u64]) -> usize {
    codes.iter().filter(|code| **code != 0).count()
}

// What is written as a sum of terms.
trait Polynomial {
    type Term: fmt::Display + Drop;

    // One more than the highest power that it may have.
    fn powers(&self) -> usize;

    // The term of a power, or nothing where its coefficient is zero.
    fn term(&self, exponent: usize) -> Option<Self::Term>;
}

// The terms from the highest power down, or 0 where there is none.
fn write_sum<W: fmt::Write, P: Polynomial>(f: &mut fmt::Formatter<W>, sum: &P) -> fmt::Result {
    let mut exponents = (0..sum.powers()).rev();
    let Some(first) = exponents.find_map(|exponent| sum.term(exponent)) else {
        return f.write_str("0");
    };
    write!(f, "{first}")?;
    for term in exponents.filter_map(|exponent| sum.term(exponent)) {
        write!(f, " + {term}")?;
    }
    Ok(())
}

// A coefficient with its power; it is left out where it is one, but for the constant.
#[derive(Clone, Copy)]
struct Term {
    coefficient: Code,
    power: Power,
}

impl fmt::Display for Term {
    fn fmt<W: fmt::Write>(&self, f: &mut fmt::Formatter<W>) -> fmt::Result {
        if self.coefficient.code != 1 || self.power.exponent == 0 {
            write!(f, "{}", self.coefficient)?;
        }
        write!(f, "{}", self.power)
    }
}

// A polynomial in one unknown, from the highest power down.
#[derive(Clone, Copy)]
pub struct Row<'a> {
    codes: &'a [u64],
    unknown: char,
    notation: Notation,
}

impl Polynomial for Row<'_> {
    type Term = Term;

    fn powers(&self) -> usize {
        self.codes.len()
    }

    fn term(&self, exponent: usize) -> Option<Term> {
        let code = *self.codes.get(exponent)?;
        (code != 0).then_some(Term {
            coefficient: self.notation.code(code),
            power: Power {
                unknown: self.unknown,
                exponent,
            },
        })
    }
}

impl fmt::Display for Row<'_> {
    fn fmt<W: fmt::Write>(&self, f: &mut fmt::Formatter<W>) -> fmt::Result {
        write_sum(f, self)
    }
}

// The coefficient of a power of x: in parentheses where it has several terms, and left out where it is one.
#[derive(Clone, Copy)]
struct Coefficient<'a> {
    row: Row<'a>,
    exponent: usize,
}

impl fmt::Display for Coefficient<'_> {
    fn fmt<W: fmt::Write>(&self, f: &mut fmt::Formatter<W>) -> fmt::Result {
        let row = self.row;
        let power = Power {
            unknown: 'x',
            exponent: self.exponent,
        };
        if self.exponent == 0 {
            write!(f, "{row}")
        } else if terms(row.codes) > 1 {
            write!(f, "({row}){power}")
        } else if row.codes.first() == Some(&1) {
            write!(f, "{power}")
        } else {
            write!(f, "{row}{power}")
        }
    }
}

// A polynomial in x and y, by its powers of x.
#[derive(Clone, Copy)]
pub struct Table<'a> {
    codes: &'a [u64],
    notation: Notation,
}

impl<'a> Polynomial for Table<'a> {
    type Term = Coefficient<'a>;

    fn powers(&self) -> usize {
        self.codes.len().div_ceil(16)
    }

    fn term(&self, exponent: usize) -> Option<Coefficient<'a>> {
        let start = exponent.checked_mul(16)?;
        let codes = self.codes.get(start..)?.chunks(16).next()?;
        (terms(codes) > 0).then_some(Coefficient {
            row: self.notation.row(codes, 'y'),
            exponent,
        })
    }
}

impl fmt::Display for Table<'_> {
    fn fmt<W: fmt::Write>(&self, f: &mut fmt::Formatter<W>) -> fmt::Result {
        write_sum(f, self)
    }
}

// A refusal, by its number and in words.
#[derive(Clone, Copy)]
pub struct Refused {
    fault: RowFault,
    notation: Notation,
}

impl fmt::Display for Refused {
    fn fmt<W: fmt::Write>(&self, f: &mut fmt::Formatter<W>) -> fmt::Result {
        let number = self.fault.number();
        write!(f, "refused {number}: ")?;
        match self.fault {
            RowFault::Length { row, length } => write!(f, "argument {row} has {length} codes"),
            RowFault::Foreign { code, .. } | RowFault::Reciprocal(ReciprocalFault::Foreign(code)) =>
                { write!(f, "{} is no element", self.notation.code(code)) }
            RowFault::Reciprocal(ReciprocalFault::NoReciprocal(code)) => {
                write!(f, "{} has no reciprocal", self.notation.code(code))
            }
        }
    }
}
