// Lists of positions, a word each, that never allocate.
#![tactic(auto)]

pub mod words;

use arrayvec::ArrayVec;

// As many positions as there is ever room for.
pub type List = ArrayVec<u64, 256>;
