// Runs tables of each refusal through the checks and prints code and place; then document 01's calls,
// three hard tables, and joins and parts, and prints answers and bytes; then checks controllers from
// elsewhere; then tables with marked start states; and last compares positions. What it prints is held to
// the stored output.
#![tactic(auto)]

mod calls;
mod joins;
mod makers;
mod positions;
mod print;
mod starts;
mod tables;

use crate::tables::OWED;
use std::io;

// Prints a table's name, and code and place of what its checks come to; 0 and 0 for a good one.
fn show(rt: &impl Print, name: &str, bytes: &[u8]) -> io::Result<()> {
    let (code, place) = match table::checks::check(bytes) {
        Ok(_) => (0, 0),
        Err(fault) => (fault.refusal.number(), fault.place),
    };
    println!(rt; "{name} code {code} place {place}")
}

// OWED with byte number `at` changed.
fn changed(at: usize, byte: u8) -> [u8; 52] {
    let mut bytes = OWED;
    if at < 52 {
        bytes[at] = byte;
    }
    bytes
}

// The refusals of lengths and of single bytes.
fn lengths_and_bytes(rt: &impl Print) -> io::Result<()> {
    show(rt, "owed", &OWED)?;
    show(rt, "no byte", &OWED[..0])?;
    show(rt, "a byte short", &OWED[..51])?;
    let long = [0u8; 4164];
    show(rt, "a record too many", &long)?;
    show(rt, "4,160 bytes of 0", &long[..4160])?;
    let kind = changed(20, 0);
    show(rt, "kind 0 in record 5", &kind)?;
    let five = changed(20, 5);
    show(rt, "kind 5 in record 5", &five)?;
    let state = changed(5, 8);
    show(rt, "state 8 in record 1", &state)?;
    let flags = changed(14, 2);
    show(rt, "start flag of a world-turn state in record 3", &flags)?;
    let rest = changed(3, 1);
    show(rt, "byte 3 of a state in record 0", &rest)?;
    let letter = changed(50, 8);
    show(rt, "letter 8 in record 12", &letter)
}

// The refusals of order, states, start, edges and gaps.
fn wholes(rt: &impl Print) -> io::Result<()> {
    let mut two = changed(46, 1);
    two[50] = 0;
    show(rt, "last two exchanged", &two)?;
    let mut early = changed(1, 1);
    early[5] = 0;
    show(rt, "first two states exchanged", &early)?;
    early[51] = 9;
    show(rt, "the same, and a bad byte in record 12", &early)?;
    let twice = changed(42, 0);
    show(rt, "record 10 before record 9", &twice)?;
    let hole = changed(5, 2);
    show(rt, "states 0 and 2", &hole)?;
    let none = changed(2, 0);
    show(rt, "no start", &none)?;
    let edge = changed(31, 2);
    show(rt, "edge to an undeclared state in record 7", &edge)?;
    show(rt, "without its last record", &OWED[..48])?;
    show(rt, "no input", &OWED[..32])?;
    show(rt, "no edge at all", &OWED[..16])?;
    show(rt, "one side only", &OWED[..8])
}

fn main(rt: HostRuntime) -> io::Result<()> {
    lengths_and_bytes(&rt)?;
    wholes(&rt)?;
    calls::document(&rt)?;
    calls::hard(&rt)?;
    joins::grouped(&rt)?;
    joins::with_itself(&rt)?;
    joins::full(&rt)?;
    makers::written(&rt)?;
    makers::right(&rt)?;
    makers::wrong(&rt)?;
    makers::longest(&rt)?;
    makers::table_refused(&rt)?;
    makers::rows_refused(&rt)?;
    makers::letters_refused(&rt)?;
    starts::several(&rt)?;
    starts::again(&rt)?;
    starts::parts(&rt)?;
    starts::refused(&rt)?;
    positions::ordered(&rt)?;
    positions::unordered(&rt)?;
    positions::lamp(&rt)
}
