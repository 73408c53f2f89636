//! A job: two tables come in, points are offered one at a time or drawn from sources, and once enough different lucky points came the greatest
//! common divisor and both cofactors are collected.
#![tactic(auto)]

mod counting;
mod faults;
mod held;
pub mod job;
mod offering;
mod opening;
mod readings;
mod running;
pub mod standing;
pub mod states;
