// Whether following rows, whoever made them, keeps every run of a table to K.
#![tactic(auto)]

pub mod keep;
pub mod lead;
pub mod most;

ghost use Rattle.std.specs.Prelude.{◌≡◌, true, MatchResult};
ghost use Rattle.meaning.specs.Checks.{check};
ghost use Rattle.meaning.specs.Answers.{refused};
ghost use Rattle.meaning.specs.Play.{rows_in};
ghost use Rattle.meaning.specs.Controller.{of_letters, verdict_on, Found};

use meaning::{Answer, Fault, Refusal, Verdict};
use table::checks;

// Checks rows against a table for the patience count k.
pub fn check(table: &[u8], k: usize, rows: &[u8]) -> Answer
    ensures { Found table.now k rows.now result }
{
    found(table, k, rows).unwrap_or_else(Answer::from)
}

// The verdict, or the first check that fails.
fn found(table: &[u8], k: usize, rows: &[u8]) -> Result<Answer, Fault>
    ensures { MatchResult result (λ answer. Found table.now k rows.now answer)
        (λ fault. Found table.now k rows.now (refused (check fault.refusal fault.place fault.which true))) }
{
    if 7 < k {
        return Err(Refusal::Bound.at(0));
    }
    let table = checks::check(table)?;
    if !rows::well_formed(rows) {
        return Err(Refusal::Rows.at(0));
    }
    if !of_letters(rows, table.outputs) {
        return Err(Refusal::Letters.at(0));
    }
    if rows::inputs(rows) != table.inputs {
        return Err(Refusal::Letters.at(0));
    }
    Ok(verdict_on(keep::keeps(table, k, rows)))
}

// 13: whether each row's output is one of so many letters.
fn of_letters(rows: &[u8], outputs: usize) -> bool
    ensures { result ≡ of_letters outputs (rows_in rows.now) }
{
    rows::fours(rows)
        .iter()
        .all(|&[_, output, ..]| (output as usize) < outputs)
}

// 0 or 1, with all other fields 0.
fn verdict_on(right: bool) -> Answer
    ensures { result ≡ verdict_on right }
{
    let verdict = if right {
        Verdict::Realizable(0)
    } else {
        Verdict::Unrealizable
    };
    Answer {
        verdict,
        place: 0,
        which: 0,
        rounds: 0,
        winners: 0,
    }
}
