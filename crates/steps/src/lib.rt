// The steps of the method over tables of codes, for any kind of coefficient: preparing two tables, looking at a point, trying what is joined
// from the images at points, and reading off the greatest common divisor with both cofactors.
#![tactic(auto)]

pub mod answer;
pub mod factored;
pub mod images;
pub mod look;
pub mod prepare;
pub mod share;
pub mod trial;
pub mod verdict;
