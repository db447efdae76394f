// Marked start states: what solving, solving by parts and checking make of the visit that a run begins
// with. Each table has one output and one input, so that one row is all that there is to follow.
use crate::tables::FIRST;
use crate::{calls, makers};
use std::io;

// Several start states, some of them marked, and a marked state that is no start state.
pub fn several(rt: &impl Print) -> io::Result<()> {
    at_each(
        rt,
        "two starts, one marked",
        b"1030 1120 2000 3000 3100 4001",
    )?;
    at_each(
        rt,
        "two starts, both marked",
        b"1030 1130 1200 2000 3000 3100 3200 4002",
    )?;
    at_each(
        rt,
        "a marked state that is no start",
        b"1010 1120 2000 3000 3100 4001",
    )?;
    at_each(
        rt,
        "one start marked, the other's run comes to a mark",
        b"1030 1120 1200 2000 2110 3000 3101 3200 4002 4102",
    )
}

// A marked start state whose run comes to one marked state more, and one that is visited again and again.
pub fn again(rt: &impl Print) -> io::Result<()> {
    at_each(
        rt,
        "a marked start, and a visit more",
        b"1030 1110 1200 2000 2100 3000 3101 3201 4001 4102",
    )?;
    at_each(rt, "a marked start for ever", b"1030 2000 3000 4000")
}

// FIRST with itself and with a table whose start is not marked, by parts.
pub fn parts(rt: &impl Print) -> io::Result<()> {
    let mut plain = [0u8; 16];
    let n = makers::spelled(b"1020 2000 3000 4000", &mut plain);
    calls::parts(rt, "FIRST and itself by parts, K 0", &FIRST, &FIRST, 0, 4)?;
    calls::parts(rt, "FIRST and itself by parts, K 1", &FIRST, &FIRST, 1, 4)?;
    calls::parts(
        rt,
        "a plain table and FIRST by parts, K 0",
        &plain[..n],
        &FIRST,
        0,
        4,
    )?;
    calls::parts(
        rt,
        "a plain table and FIRST by parts, K 1",
        &plain[..n],
        &FIRST,
        1,
        4,
    )
}

// Refusals come before the start is looked at: rows that are not well formed, and of other letters.
pub fn refused(rt: &impl Print) -> io::Result<()> {
    makers::checked(rt, "FIRST, no row", &FIRST, 0, b"")?;
    makers::checked(rt, "FIRST, output 1", &FIRST, 0, b"0100")
}

// A table in digits at K 0, 1 and 2.
fn at_each(rt: &impl Print, name: &str, digits: &[u8]) -> io::Result<()> {
    for k in 0..3 {
        at(rt, name, digits, k)?;
    }
    Ok(())
}

// A table in digits solved, and the row 0000 checked against it.
fn at(rt: &impl Print, name: &str, digits: &[u8], k: usize) -> io::Result<()> {
    let mut table = [0u8; 40];
    let n = makers::spelled(digits, &mut table);
    calls::small(rt, name, &table[..n], k, 2)?;
    makers::checked(rt, name, &table[..n], k, b"0000")
}
