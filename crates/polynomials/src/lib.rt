// Polynomials as rows and tables of codes, over any kind of coefficient: a row has the coefficients of one unknown from the
// constant up, and place 16 i + j of a table that of x^i y^j.
// `evaluate`, `image`, `divide` and `gcd` are calls for everyone: they look at what they are handed, and refuse. The steps that they
// are made of do not, and promise what they do where rows have elements.
#![tactic(auto)]

pub mod divide;
pub mod evaluate;
pub mod faults;
pub mod gcd;
pub mod product;
pub mod rows;
#[cfg(test)]
mod tests;
