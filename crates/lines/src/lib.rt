// What the programs print: an answer's fields by name, how two positions compare, and bytes as lines of numbers; and how they read their
// files. The calls that give these are proved elsewhere; here no more is proved than that it is safe.
#![tactic(auto)]

pub mod files;

ghost use Rattle.std.specs.Prelude.{◌<◌, ◌≤◌};

use meaning::{Answer, Comparison};
use std::{fmt, io};

// An answer as text: its fields by name.
#[derive(Drop)]
pub struct Fields(pub Answer);

impl fmt::Display for Fields {
    fn fmt<W: fmt::Write>(&self, f: &mut fmt::Formatter<W>) -> fmt::Result {
        let Answer {
            verdict,
            place,
            which,
            rounds,
            winners,
        } = self.0;
        let code = verdict.code();
        let start = verdict.start();
        write!(
            f,
            "code {code} place {place} which {which} rounds {rounds} winners {winners} start {start}"
        )
    }
}

// How one position stands to another, in a word.
pub fn word(comparison: Comparison) -> &'static str {
    match comparison {
        Comparison::Same => "same",
        Comparison::Below => "below",
        Comparison::Above => "above",
        Comparison::Neither => "neither",
    }
}

// How many rows a controller has: one for each winner and input.
pub fn rows(winners: usize, inputs: usize) -> usize
    ensures { result ≤ 2048 }
{
    if 256 < winners || 8 < inputs {
        return 0;
    }
    winners * inputs
}

// Bytes as text: their numbers, with blanks between them.
#[derive(Drop)]
struct Line<'a>(&'a [u8]);

impl fmt::Display for Line<'_> {
    fn fmt<W: fmt::Write>(&self, f: &mut fmt::Formatter<W>) -> fmt::Result {
        let Some((first, others)) = self.0.split_first() else {
            return Ok(());
        };
        write!(f, "{first}")?;
        for other in others {
            write!(f, " {other}")?;
        }
        Ok(())
    }
}

// The first bytes as numbers: so many lines, each of so many bytes, or fewer if the bytes end.
pub fn numbers<const WIDTH: usize>(rt: &impl Print, bytes: &[u8], count: usize) -> io::Result<()>
    requires { 0 < WIDTH }
{
    for line in bytes.chunks_exact(WIDTH).take(count) {
        rt.println(Line(line))?;
    }
    Ok(())
}
