// From a table's bytes to a fault, or to the table in masks and marks.
#![tactic(auto)]

pub mod checks;
pub mod read;
pub mod record;

// A turn-based universal automaton. A mark is 1 for a marked state; bit q of `starts` is set if
// state q is a start; bit q of byte l * 8 + p of the targets is set if an edge on letter l leads
// from state p to state q.
#[derive(Clone, Copy)]
pub struct Table {
    pub controllers: usize,
    pub worlds: usize,
    pub outputs: usize,
    pub inputs: usize,
    pub starts: u8,
    pub controller_marks: [u8; 8],
    pub world_marks: [u8; 8],
    pub output_targets: [u8; 64],
    pub input_targets: [u8; 64],
}
