// One unit's state: the table of numbers that the caller lends, taken apart into arrays and laid back (`held`), tested (`fit`),
// and asked (`questions`, which lays the fresh table too).
//
// What others call takes any numbers: a table that is none holds no unit, and is left as it came.
#![tactic(auto)]

pub mod fit;
pub mod held;
pub mod questions;
