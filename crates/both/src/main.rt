// The desk program for two tables, each in a file of bytes. 'both join FIRST SECOND' prints the answer
// and the records of the joined table. 'both parts FIRST SECOND' solves the two by parts with N 256 for
// K = 0, 1, up to 7, stopping after the first code other than 1, and prints what the desk program
// prints for one table, with the field which.
#![tactic(auto)]

use lines::{Fields, files};
use meaning::Verdict;
use std::io;
use std::rt::Env;
use table::record::INPUT;

fn main(rt: HostRuntime) -> io::Result<()> {
    let one = files::open_argument(&rt, 2)?;
    let two = files::open_argument(&rt, 3)?;
    let (Some(mut one), Some(mut two)) = (one, two) else {
        return Ok(());
    };
    let mut first = [0u8; 4161];
    let mut second = [0u8; 4161];
    let n = files::read_full(&mut one, &mut first)?;
    let m = files::read_full(&mut two, &mut second)?;
    let mut word = [0u8; 8];
    let length = rt.arg(1, &mut word).unwrap_or(0);
    match &word[..length] {
        b"join" => join(&rt, &first[..n], &second[..m]),
        b"parts" => parts(&rt, &first[..n], &second[..m]),
        _ => Ok(()),
    }
}

// Prints the answer of a join, and the records of the joined table.
fn join(rt: &impl Print, first: &[u8], second: &[u8]) -> io::Result<()> {
    let mut out = [0u8; 4160];
    let answer = join::join(first, second, &mut out);
    rt.println(Fields(answer))?;
    match answer.verdict {
        Verdict::Realizable(_) => lines::numbers::<4>(rt, &out, answer.place / 4),
        Verdict::Unrealizable | Verdict::Refused(_) => Ok(()),
    }
}

// Solves by parts for one patience count after the other, and prints what comes of each.
fn parts(rt: &impl Print, first: &[u8], second: &[u8]) -> io::Result<()> {
    let mut winners = [0u8; 2048];
    let mut controller = [0u8; 8192];
    for k in 0..8 {
        let answer = join::parts(first, second, k, 256, &mut winners, &mut controller);
        println!(rt; "k {k} {}", Fields(answer))?;
        match answer.verdict {
            Verdict::Realizable(_) => {
                let inputs = table::read::letters(first, INPUT);
                return lines::numbers::<4>(rt, &controller, lines::rows(answer.winners, inputs));
            }
            Verdict::Unrealizable => {}
            Verdict::Refused(_) => return Ok(()),
        }
    }
    Ok(())
}
