// Controllers checked whoever made them: those that the solver wrote, right and wrong ones that it would
// never write, and each refusal. Rows and small tables are spelled in digits.
ghost use Rattle.std.specs.Prelude.{◌≤◌, length, ◌≡◌, take};

use crate::tables::{FIRST, OWED, PROMPT, SILENT};
use crate::{calls, print};
use std::io;
use std::rt::Files;
use table::record::INPUT;

// What the solver writes, checked at the K that it was written for; and FIRST's and LAMP's at a smaller
// one, which is too small for them.
pub fn written(rt: &(impl Print + Eprint + Files)) -> io::Result<()> {
    solved(rt, "C1's rows", &OWED, 0, 0)?;
    solved(rt, "C2's rows", &SILENT, 0, 0)?;
    solved(rt, "FIRST's rows for K 1", &FIRST, 1, 1)?;
    solved(rt, "FIRST's rows for K 1", &FIRST, 1, 0)?;
    solved(rt, "PROMPT's rows", &PROMPT, 0, 0)?;
    let mut table = [0u8; 4161];
    let n = calls::read(rt, b"lamp.tab", &mut table)?;
    solved(rt, "LAMP's rows for K 1", &table[..n], 1, 1)?;
    solved(rt, "LAMP's rows for K 1", &table[..n], 1, 0)?;
    let m = calls::read(rt, b"work.tab", &mut table)?;
    solved(rt, "work's rows for K 2", &table[..m], 2, 2)
}

// Right rows for OWED that the solver would never write, and one for a table that leaves it the choice.
pub fn right(rt: &impl Print) -> io::Result<()> {
    kept(rt, "warns only when owed", 0, b"7007 7013 3107 3113")?;
    kept(rt, "puts off once", 1, b"0000 0011 1002 1012 2102 2112")?;
    kept(rt, "never meets its bad state", 0, b"0100 0110 1001 1011")?;
    let mut table = [0u8; 20];
    let n = spelled(b"1020 2000 3000 3010 4000", &mut table);
    checked(
        rt,
        "gives the larger of two outputs",
        &table[..n],
        0,
        b"5105",
    )
}

// Wrong rows: for a table that comes to its marked start again with each input, and for OWED. The last two
// overrun only when a state is met again, with a larger count.
pub fn wrong(rt: &impl Print) -> io::Result<()> {
    let mut table = [0u8; 16];
    let n = spelled(b"1030 2000 3000 4000", &mut table);
    checked(rt, "comes to a mark by an input", &table[..n], 7, b"0000")?;
    kept(rt, "puts off for ever", 0, b"0000 0010")?;
    kept(rt, "puts off for ever", 7, b"0000 0010")?;
    kept(rt, "puts off once", 0, b"0000 0011 1002 1012 2102 2112")?;
    kept(rt, "puts off every second one", 1, b"0101 0111 1000 1010")?;
    kept(rt, "puts off every second one", 7, b"0101 0111 1000 1010")
}

// The longest rows there are, of 256 states: a ring that gives output 0; and one that gives output 1 in
// its last state alone, which costs a visit a turn. At K 7 that is one too many in the eighth turn.
pub fn longest(rt: &impl Print) -> io::Result<()> {
    let mut table = [0u8; 84];
    let n = spelled(
        b"1020 2000 2110 3000 3011 4000 4010 4020 4030 4040 4050 4060 4070 4100 4110 4120 4130 4140 4150 4160 4170",
        &mut table,
    );
    let quiet = ring(0);
    let kept = checker::check(&table[..n], 0, &quiet);
    print::checked(rt, "a ring of 256 states", 0, kept)?;
    print::sizes(rt, rows::states(&quiet), rows::inputs(&quiet))?;
    let loud = ring(1);
    let overrun = checker::check(&table[..n], 7, &loud);
    print::checked(rt, "a ring that costs a visit a turn", 7, overrun)
}

// 2, then 4 to 10 of the table: the rows are at fault too.
pub fn table_refused(rt: &impl Print) -> io::Result<()> {
    checked(rt, "K 8, and no table", &OWED[..0], 8, b"")?;
    faulty(rt, "no table", b"")?;
    faulty(rt, "a record a byte short", b"1020 2000 3000 400")?;
    faulty(rt, "kind 5 in record 4", b"1020 2000 3000 4000 5000")?;
    faulty(rt, "record 2 before record 1", b"1020 3000 2000 4000")?;
    faulty(rt, "states 0 and 2", b"1020 1200 2000 3000 4000")?;
    faulty(rt, "no start", b"1010 2000 3000 4000")?;
    faulty(rt, "an edge to nowhere in record 3", b"1020 2000 3000 4001")?;
    faulty(rt, "no input", b"1020 2000 3000")
}

// 15, for each clause of what well-formed rows are; the last two are 13 as well.
pub fn rows_refused(rt: &impl Print) -> io::Result<()> {
    let long = [0u8; 8196];
    print::checked(rt, "a row too many", 0, checker::check(&OWED, 0, &long))?;
    kept(rt, "no row", 0, b"")?;
    kept(rt, "a row a byte short", 0, b"0100 011")?;
    kept(rt, "first state again", 0, b"0100 0110 1100 1110 0100 0110")?;
    kept(
        rt,
        "states that descend",
        0,
        b"0100 0110 2100 2110 1100 1110",
    )?;
    kept(rt, "a first input of 1", 0, b"0110")?;
    kept(rt, "a later first input of 1", 0, b"0101 0110 1110")?;
    kept(rt, "an input left out", 0, b"0100 0120")?;
    kept(rt, "an input twice", 0, b"0100 0100 0110")?;
    kept(rt, "a last input missing", 0, b"0101 0110 1100 2100 2110")?;
    kept(rt, "a last input too many", 0, b"0101 0110 1100 1110 1120")?;
    let mut nine = [0u8; 36];
    let n = spelled(b"0100 0110 0120 0130 0140 0150 0160 0170 0180", &mut nine);
    print::checked(rt, "input 8", 0, checker::check(&OWED, 0, &nine[..n]))?;
    kept(rt, "a next state without rows", 0, b"0100 0113")?;
    kept(rt, "two outputs of a state", 0, b"0100 0010")?;
    kept(rt, "output 8", 0, b"0800 0810")?;
    kept(rt, "output 2, and an input left out", 0, b"0200 0220")
}

// 13, for each of its reasons.
pub fn letters_refused(rt: &impl Print) -> io::Result<()> {
    kept(rt, "output 2", 0, b"0200 0210")?;
    kept(rt, "output 2, never reached", 0, b"0100 0110 1200 1210")?;
    kept(rt, "an input too few", 0, b"0100")?;
    kept(rt, "an input too many", 0, b"0100 0110 0120")
}

// Solves a table for one patience count, and checks the rows written for another.
fn solved(rt: &impl Print, name: &str, table: &[u8], made_for: usize, k: usize) -> io::Result<()> {
    let mut winners = [9u8; 2048];
    let mut controller = [9u8; 8192];
    let answer = game::solve(table, made_for, 256, &mut winners, &mut controller);
    let inputs = table::read::letters(table, INPUT);
    let n = 4 * lines::rows(answer.winners, inputs);
    print::checked(rt, name, k, checker::check(table, k, &controller[..n]))
}

// Checks rows in digits against a table.
pub fn checked(
    rt: &impl Print,
    name: &str,
    table: &[u8],
    k: usize,
    digits: &[u8],
) -> io::Result<()> {
    let mut rows = [0u8; 32];
    let n = spelled(digits, &mut rows);
    print::checked(rt, name, k, checker::check(table, k, &rows[..n]))
}

// Checks rows in digits against OWED.
fn kept(rt: &impl Print, name: &str, k: usize, digits: &[u8]) -> io::Result<()> {
    checked(rt, name, &OWED, k, digits)
}

// Checks no rows against a table in digits.
fn faulty(rt: &impl Print, name: &str, digits: &[u8]) -> io::Result<()> {
    let mut table = [0u8; 32];
    let n = spelled(digits, &mut table);
    checked(rt, name, &table[..n], 0, b"")
}

// Writes digits as bytes, a digit a byte, and answers how many there are. Blanks are passed over.
pub fn spelled(digits: &[u8], out: &mut [u8]) -> usize
    ensures { (result ≤ length out.new) × (result ≡ length (take result out.new)) }
{
    let mut n = 0;
    for digit in digits {
        if n == out.len() {
            break;
        }
        if b'0' <= *digit {
            out[n] = digit - b'0';
            n += 1;
        }
    }
    n
}

// Rows of 256 states and eight inputs: each state leads to the next, whatever comes, and the last to the
// first. They give output 0, and the last state the one asked for.
fn ring(last: u8) -> [u8; 8192] {
    let mut rows = [0u8; 8192];
    for (i, row) in rows.chunks_exact_mut(4).enumerate() {
        let state = i / 8;
        row.copy_from_slice(&[
            (state % 256) as u8,
            output_in(state, last),
            (i % 8) as u8,
            ((state + 1) % 256) as u8,
        ]);
    }
    rows
}

fn output_in(state: usize, last: u8) -> u8 {
    if state == 255 { last } else { 0 }
}
