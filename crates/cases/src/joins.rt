// Joins and parts: three tables grouped both ways, tables joined with themselves, and FULL in each of
// its places by parts.
use crate::tables::{OWED, PROMPT, SILENT};
use crate::{calls, print};
use std::io;

// PROMPT, OWED and SILENT joined from the left and from the right, and whether the bytes are the same.
pub fn grouped(rt: &impl Print) -> io::Result<()> {
    let mut first_two = [9u8; 4160];
    let n = calls::joined(rt, "PROMPT joined OWED", &PROMPT, &OWED, &mut first_two)?;
    let mut then = [9u8; 4160];
    let left = calls::joined(
        rt,
        "the two joined SILENT",
        &first_two[..n],
        &SILENT,
        &mut then,
    )?;
    print::records(rt, &then[..left])?;
    let mut last_two = [9u8; 4160];
    let m = calls::joined(rt, "OWED joined SILENT", &OWED, &SILENT, &mut last_two)?;
    let mut after = [9u8; 4160];
    let right = calls::joined(
        rt,
        "PROMPT joined the two",
        &PROMPT,
        &last_two[..m],
        &mut after,
    )?;
    if then[..left] == after[..right] {
        println!(rt; "grouped both ways: equal bytes")
    } else {
        println!(rt; "grouped both ways: other bytes")
    }
}

// Tables joined with themselves: three that are realizable and one that is not. SILENT is solved by
// parts too, since it takes no round there and one afresh: the rounds are those of the last stage.
pub fn with_itself(rt: &impl Print) -> io::Result<()> {
    twice(rt, "OWED", &OWED)?;
    twice(rt, "SILENT", &SILENT)?;
    calls::parts(rt, "by parts with itself", &SILENT, &SILENT, 0, 2)?;
    twice(rt, "PROMPT", &PROMPT)?;
    let mut both = [9u8; 4160];
    let n = calls::joined(rt, "OWED joined SILENT", &OWED, &SILENT, &mut both)?;
    twice(rt, "the two", &both[..n])
}

// A table's own answer at K 0 and N 2, and beside it that of the table joined with itself.
fn twice(rt: &impl Print, name: &str, table: &[u8]) -> io::Result<()> {
    calls::small(rt, name, table, 0, 2)?;
    let mut both = [9u8; 4160];
    let n = calls::joined(rt, "joined with itself", table, table, &mut both)?;
    calls::small(rt, "solved with itself", &both[..n], 0, 2)
}

// FULL by parts, in each of its places. PROMPT needs room for 2 alone, so it is full as the first table
// and as the second. Its winners make 4 pairs with themselves, and no set after that list has more than
// 2. OWED and SILENT need room for 1 alone and for their pairs, and for 2 in the rounds (C5).
pub fn full(rt: &impl Print) -> io::Result<()> {
    calls::parts(rt, "PROMPT and OWED by parts at N 1", &PROMPT, &OWED, 0, 1)?;
    calls::parts(rt, "OWED and PROMPT by parts at N 1", &OWED, &PROMPT, 0, 1)?;
    calls::parts(
        rt,
        "PROMPT and PROMPT by parts at N 3",
        &PROMPT,
        &PROMPT,
        0,
        3,
    )?;
    calls::parts(
        rt,
        "PROMPT and PROMPT by parts at N 4",
        &PROMPT,
        &PROMPT,
        0,
        4,
    )?;
    calls::parts(rt, "OWED and SILENT by parts at N 1", &OWED, &SILENT, 0, 1)
}
