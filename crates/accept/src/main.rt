// The desk program for a controller from elsewhere. 'accept TABLE ROWS K' checks the rows in one file of
// bytes against the table in another for the patience count K, and prints K with the answer's code and
// place: its other fields are 0.
#![tactic(auto)]

use lines::files;
use std::rt::Env;
use std::{io, str};

fn main(rt: HostRuntime) -> io::Result<()> {
    let table_file = files::open_argument(&rt, 1)?;
    let rows_file = files::open_argument(&rt, 2)?;
    let (Some(mut table_file), Some(mut rows_file)) = (table_file, rows_file) else {
        return Ok(());
    };
    let mut table = [0u8; 4161];
    let mut rows = [0u8; 8193];
    let n = files::read_full(&mut table_file, &mut table)?;
    let m = files::read_full(&mut rows_file, &mut rows)?;
    let mut word = [0u8; 9];
    let length = rt.arg(3, &mut word).unwrap_or(0);
    let Some(k) = number(&word[..length]) else {
        return eprintln!(rt; "K is not a number of at most nine digits");
    };
    let answer = checker::check(&table[..n], k, &rows[..m]);
    println!(rt;
        "k {k} code {} place {}",
        answer.verdict.code(),
        answer.place
    )
}

// A number in decimal digits, of which there is one at least. A sign is none: so it is looked for first, since `parse` takes one.
fn number(word: &[u8]) -> Option<usize> {
    if !word.iter().all(|byte| byte.is_ascii_digit()) {
        return None;
    }
    str::from_utf8(word).ok()?.parse().ok()
}
