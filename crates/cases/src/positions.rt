// Positions: how two compare, each pair both ways, at the edges of the four cases; and LAMP's winners, which docs/TABLES.md speaks of.
// A position is written as its word, a byte for each state.
use crate::calls;
use counts::word;
use meaning::Comparison;
use std::io;
use std::rt::Files;

// Pairs of which one is the same as the other or below it.
pub fn ordered(rt: &impl Print) -> io::Result<()> {
    pair(rt, "no run at all", 0, 0)?;
    pair(
        rt,
        "equal counts",
        0x0102_0304_0506_0708,
        0x0102_0304_0506_0708,
    )?;
    pair(
        rt,
        "equal counts, other top bits",
        0x8102_8304_8506_8708,
        0x0182_0384_0586_0788,
    )?;
    pair(rt, "no run and count 0 in the last state", 0, 1)?;
    pair(
        rt,
        "no run and count 0 in the first state",
        0,
        0x0100_0000_0000_0000,
    )?;
    pair(
        rt,
        "one lower everywhere",
        0x0102_0304_0506_0708,
        0x0203_0405_0607_0809,
    )?;
    pair(
        rt,
        "higher in a middle state alone",
        0x0101_0102_0101_0101,
        0x0101_0101_0101_0101,
    )
}

// Pairs that differ both ways.
pub fn unordered(rt: &impl Print) -> io::Result<()> {
    pair(
        rt,
        "lower in the first state, higher in the last",
        0x0100_0000_0000_0002,
        0x0200_0000_0000_0001,
    )?;
    pair(
        rt,
        "lower in the first state, higher in all others",
        0x0002_0202_0202_0202,
        0x0101_0101_0101_0101,
    )?;
    pair(
        rt,
        "a run moved to the next state",
        0x0001_0000_0000_0000,
        0x0100_0000_0000_0000,
    )
}

// The two positions that docs/TABLES.md names for patience 1, and one for patience 2.
pub fn lamp(rt: &(impl Print + Eprint + Files)) -> io::Result<()> {
    let mut table = [0u8; 4161];
    let n = calls::read(rt, b"lamp.tab", &mut table)?;
    calls::small(rt, "LAMP at K 1", &table[..n], 1, 2)?;
    calls::small(rt, "LAMP at K 2", &table[..n], 2, 2)
}

fn pair(rt: &impl Print, name: &str, a: u64, b: u64) -> io::Result<()> {
    let one_way = words(word::compare(a, b));
    let other_way = words(word::compare(b, a));
    println!(rt; "{name}: {one_way}, turned round {other_way}")
}

fn words(comparison: Comparison) -> &'static str {
    match comparison {
        Comparison::Same => "the same",
        other => lines::word(other),
    }
}
