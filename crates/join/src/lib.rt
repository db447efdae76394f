// Two tables joined into one: the second's states are renumbered upward by the first's counts. And
// two tables solved by parts: each alone, and the joined one held to the pairs of their winners.
#![tactic(auto)]

pub mod beside;
pub mod stage;

ghost use Rattle.std.specs.Prelude.{◌≡◌};
ghost use Rattle.meaning.specs.Answers.{join as join_of, parts as parts_of, joined_as, told, solved};

use joined::pair;
use meaning::{Answer, Fault, Refusal, Verdict};

// Writes the joined table, and answers 0 with the number of bytes as its place; or the first of
// checks 3, 4 to 10 of the first table, 4 to 10 of the second, 13 and 14 that fails.
pub fn join(first: &[u8], second: &[u8], out: &mut [u8]) -> Answer
    ensures { joined_as result out.new ≡ join_of first.now second.now out.old }
{
    checked_join(first, second, out).unwrap_or_else(Answer::from)
}

// The checks in their order, and then the joined table.
fn checked_join(first: &[u8], second: &[u8], out: &mut [u8]) -> Result<Answer, Fault>
    ensures { joined_as (told result) out.new ≡ join_of first.now second.now out.old }
{
    if out.len() < 4160 {
        return Err(Refusal::Room.at(0));
    }
    let tables = pair::pair(first, second)?;
    Ok(Answer {
        verdict: Verdict::Realizable(0),
        place: joined::write(tables, first, second, out),
        which: 0,
        rounds: 0,
        winners: 0,
    })
}

// Solves two tables by parts for the patience count k, with room for so many positions: the winners
// and the controller's rows of the joined table, and the answer of the last stage; or the first of
// checks 2, 3, 4 to 10 of each, 13, 14, and 11 and 12 of each stage that fails.
pub fn parts(
    first: &[u8],
    second: &[u8],
    k: usize,
    room: usize,
    winners: &mut [u8],
    controller: &mut [u8],
) -> Answer
    ensures { solved result winners.new controller.new
        ≡ parts_of first.now second.now k room winners.old controller.old }
{
    checked_parts(first, second, k, room, winners, controller).unwrap_or_else(Answer::from)
}

// The checks in their order, and then the three stages.
fn checked_parts(
    first: &[u8],
    second: &[u8],
    k: usize,
    room: usize,
    winners: &mut [u8],
    controller: &mut [u8],
) -> Result<Answer, Fault>
    ensures { solved (told result) winners.new controller.new
        ≡ parts_of first.now second.now k room winners.old controller.old }
{
    if 7 < k {
        return Err(Refusal::Bound.at(0));
    }
    if game::small_room(room, winners.len(), controller.len()) {
        return Err(Refusal::Room.at(0));
    }
    let tables = pair::pair(first, second)?;
    stage::in_turn(tables, first, second, k, room, winners, controller)
}
