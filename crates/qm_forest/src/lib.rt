//! A forest of blossoms over a graph: its queries and steps, each in the time of what it touches, without memory.
#![tactic(auto)]

mod augmenting;
mod climbing;
mod darts;
mod expanding;
mod forest;
mod gathering;
mod growing;
mod loads;
mod matchings;
mod members;
mod numbers;
mod ordering;
mod parting;
mod ring;
mod room;
mod rounds;
mod search;
mod shrinking;
mod start;
mod tables;
mod writes;
mod writing;

pub use darts::{near, twin};
pub use forest::Forest;
pub use start::{Memory, greatest_cost, least_costs};
