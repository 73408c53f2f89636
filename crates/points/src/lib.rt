// Sources of points: an interface by the list of codes that wait, and four makes.
#![tactic(auto)]

pub mod chain;
pub mod counting;
pub mod pile;
pub mod shift;
pub mod source;
pub mod supplied;
#[cfg(test)]
mod tests;
