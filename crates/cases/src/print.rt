// What a call answered and what it left in its buffers, as text.
use lines::Fields;
use meaning::{Answer, Verdict};
use std::io;

// The call's name and the answer's fields, the bytes of winners and rows that the answer speaks of,
// and how many 9s stand at the end of each buffer.
pub fn call(
    rt: &impl Print,
    name: &str,
    answer: Answer,
    inputs: usize,
    winners: &[u8],
    controller: &[u8],
) -> io::Result<()> {
    println!(rt; "{name} {}", Fields(answer))?;
    match answer.verdict {
        Verdict::Realizable(_) => {
            lines::numbers::<8>(rt, winners, answer.winners)?;
            lines::numbers::<4>(rt, controller, lines::rows(answer.winners, inputs))?;
        }
        Verdict::Unrealizable => lines::numbers::<8>(rt, winners, answer.winners)?,
        Verdict::Refused(_) => {}
    }
    println!(rt;
        "9s left at the end: winners {} controller {}",
        nines(winners),
        nines(controller)
    )
}

// A join's name and the answer's fields, and how many 9s stand at the end of its buffer.
pub fn joined(rt: &impl Print, name: &str, answer: Answer, out: &[u8]) -> io::Result<()> {
    println!(rt; "{name} {}", Fields(answer))?;
    println!(rt; "9s left at the end: {}", nines(out))
}

// A check's name, its K and the answer's fields.
pub fn checked(rt: &impl Print, name: &str, k: usize, answer: Answer) -> io::Result<()> {
    println!(rt; "{name} k {k} {}", Fields(answer))
}

// How many states and inputs rows have.
pub fn sizes(rt: &impl Print, states: usize, inputs: usize) -> io::Result<()> {
    println!(rt; "states {states} inputs {inputs}")
}

// A table's bytes as numbers, a record a line.
pub fn records(rt: &impl Print, bytes: &[u8]) -> io::Result<()> {
    lines::numbers::<4>(rt, bytes, bytes.len() / 4)
}

// How many bytes from the end on are 9: what a call left of a buffer of 9s.
fn nines(bytes: &[u8]) -> usize {
    bytes.iter().rev().take_while(|byte| **byte == 9).count()
}
