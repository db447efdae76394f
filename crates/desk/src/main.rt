// The desk program: reads up to 4,161 bytes of a table from standard input and solves it with N 256
// for K = 0, 1, up to 7, stopping after the first code other than 1.
#![tactic(auto)]

use lines::files;
use meaning::{Answer, Verdict};
use std::io;
use table::record::INPUT;

fn main(rt: HostRuntime) -> io::Result<()> {
    let mut table = [0u8; 4161];
    let n = files::read_full(&mut rt.stdin(), &mut table)?;
    let mut winners = [0u8; 2048];
    let mut controller = [0u8; 8192];
    for k in 0..8 {
        let answer = game::solve(&table[..n], k, 256, &mut winners, &mut controller);
        print_answer(&rt, k, answer)?;
        match answer.verdict {
            Verdict::Realizable(_) => {
                // "after code 0 the rows as numbers (state, output, input, next)"
                let inputs = table::read::letters(&table[..n], INPUT);
                return lines::numbers::<4>(&rt, &controller, lines::rows(answer.winners, inputs));
            }
            Verdict::Unrealizable => {}
            Verdict::Refused(_) => return Ok(()),
        }
    }
    Ok(())
}

// "a line with K and the answer's fields by name, all but which"
fn print_answer(rt: &impl Print, k: usize, answer: Answer) -> io::Result<()> {
    let Answer {
        verdict,
        place,
        rounds,
        winners,
        ..
    } = answer;
    let code = verdict.code();
    let start = verdict.start();
    println!(rt; "k {k} code {code} place {place} rounds {rounds} winners {winners} start {start}")
}
