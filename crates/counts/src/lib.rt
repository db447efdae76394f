// Counts and positions in code. A count is an i8, -1 where no run is. A position is a word of eight counts, -1 also where its
// side has no state; it is stepped count by count, or all of its counts at once.
#![tactic(auto)]

pub mod count;
pub mod position;
pub mod word;
