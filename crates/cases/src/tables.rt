// The tables that are solved and joined, a digit a byte: document 01's own, and one more.

// OWED: after input 1 a warning is owed until output 1.
pub const OWED: [u8; 52] = [
    1, 0, 2, 0, 1, 1, 0, 0, 2, 0, 0, 0, 2, 1, 1, 0, 3, 0, 0, 0, 3, 0, 1, 0, 3, 1, 0, 1, 3, 1, 1, 0,
    4, 0, 0, 0, 4, 0, 1, 0, 4, 0, 1, 1, 4, 1, 0, 1, 4, 1, 1, 1,
];

// SILENT: output 1 must never come.
pub const SILENT: [u8; 48] = [
    1, 0, 2, 0, 1, 1, 0, 0, 2, 0, 0, 0, 2, 1, 1, 0, 3, 0, 0, 0, 3, 0, 1, 1, 3, 1, 0, 1, 3, 1, 1, 1,
    4, 0, 0, 0, 4, 0, 1, 0, 4, 1, 0, 1, 4, 1, 1, 1,
];

// FIRST: the start state is marked, and a run visits it once.
pub const FIRST: [u8; 24] = [
    1, 0, 3, 0, 1, 1, 0, 0, 2, 0, 0, 0, 3, 0, 0, 0, 3, 1, 0, 0, 4, 0, 0, 1,
];

// PROMPT: output 1 right after input 1, and at no other time. Its counts of states differ, and it has two
// winners, so that renumbering by the wrong side and a list of pairs that is too long show.
pub const PROMPT: [u8; 60] = [
    1, 0, 2, 0, 1, 1, 0, 0, 1, 2, 0, 0, 2, 0, 0, 0, 2, 1, 1, 0, 3, 0, 0, 0, 3, 0, 1, 0, 3, 1, 0, 0,
    3, 1, 1, 1, 3, 2, 0, 1, 3, 2, 1, 0, 4, 0, 0, 1, 4, 0, 1, 2, 4, 1, 0, 1, 4, 1, 1, 2,
];
