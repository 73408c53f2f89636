// Polynomials in x and y as 16 rows of `width` codes that stand one after the other, over any kind of coefficient: the i-th row is the
// coefficient of x^i. A table has the width 16; joined images have the width 32, since they go up to the 30th power of y.
// These are steps for the crates above: they ask for lengths that fit, and promise what they do where the rows have elements.
#![tactic(auto)]

pub mod content;
pub mod degrees;
pub mod exact;
pub mod faults;
pub mod join;
pub mod lead;
pub mod rows;
pub mod scale;
#[cfg(test)]
mod tests;
