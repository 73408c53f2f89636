// Kinds of coefficient: an interface by its meaning, and two kinds, residues modulo a number and bytes.
#![tactic(auto)]

pub mod bytes;
pub mod kind;
pub mod listed;
pub mod modulus;
pub mod primes;
pub mod residues;
#[cfg(test)]
mod tests;
