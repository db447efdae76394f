// The desk program for two positions of one side. 'compare A B' takes each as eight digits in the winners'
// form, and prints how the first stands to the second: a word, and the states whose counts differ.
#![tactic(auto)]

ghost use Rattle.std.specs.Prelude.{◌≡◌, ◌<◌};
ghost use Rattle.meaning.specs.Counting.{count as count_of};
ghost use Rattle.masks.specs.Mask.{mask};
ghost use Rattle.counts.specs.Words.{counts_in};
ghost use Rattle.compare.specs.Shown.{ReadAs, differs};

use std::io;
use std::rt::Env;

fn main(rt: HostRuntime) -> io::Result<()> {
    let Some(a) = argument(&rt, 1) else {
        return refuse(&rt, "The first");
    };
    let Some(b) = argument(&rt, 2) else {
        return refuse(&rt, "The second");
    };
    rt.print(lines::word(counts::word::compare(a, b)))?;
    print_states(&rt, differing(a, b))?;
    println!(rt)
}

// The position that one word of the call shows: eight counts in a word of 64 bits, as in the crate counts. A word with more than eight
// bytes is none of eight digits, and comes as none at all.
fn argument(rt: &impl Env, i: usize) -> Option<u64> {
    let mut word = [0u8; 8];
    let length = rt.arg(i, &mut word).unwrap_or(0);
    read(&word[..length])
}

fn refuse(rt: &impl Eprint, which: &str) -> io::Result<()> {
    eprintln!(rt;
        "{which} word is not a position: eight digits, one for each state, its count + 1, or 0 where no run is"
    )
}

// The position that a word of eight digits shows; a word of anything else shows none.
fn read(word: &[u8]) -> Option<u64>
    ensures { ReadAs word.now result }
{
    if word.len() != 8 {
        return None;
    }
    let mut position = 0u64;
    for byte in word {
        if !byte.is_ascii_digit() {
            return None;
        }
        position = position * 256 + (byte - b'0') as u64;
    }
    Some(position)
}

// The count of state q, one higher: the digit that shows it.
fn digit(position: u64, q: usize) -> u8
    requires { q < 8 }
    ensures { result ≡ count_of (counts_in position) q }
{
    counts::count::to_byte(counts::position::at(position, q))
}

// The states whose counts differ, as eight bits.
fn differing(a: u64, b: u64) -> u8
    ensures { result ≡ mask 8 (differs (counts_in a) (counts_in b)) }
{
    let mut states = 0u8;
    for q in 0..8 {
        if digit(a, q) != digit(b, q) {
            states = masks::with_state(states, q);
        }
    }
    states
}

fn print_states(rt: &impl Print, states: u8) -> io::Result<()> {
    for q in (0..8).filter(|q| masks::has(states, *q)) {
        print!(rt; " {q}")?;
    }
    Ok(())
}
