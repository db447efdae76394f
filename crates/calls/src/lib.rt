// The public calls for other programs: numbers and byte slices in, the code out, and the answer laid
// down as bytes. The crate calls_c exports them for C and Rust.
#![tactic(auto)]

pub mod lay;

ghost use Rattle.std.specs.Prelude.{◌≡◌, cond, ltb};
ghost use Rattle.calls.specs.Called.{unanswered as unanswered_for, called, called_solve, called_parts, joins, called_join, CalledCheck};

use meaning::Refusal;

// Solves a table for the patience count k, with room for so many positions.
pub fn desk_solve(
    table: &[u8],
    k: u32,
    room: u32,
    winners: &mut [u8],
    controller: &mut [u8],
    answer: &mut [u8],
) -> u32
    ensures { called result winners.new controller.new answer.new
        ≡ called_solve table.now k room winners.old controller.old answer.old }
{
    let room = answered_room(room, answer.len());
    let solved = game::solve(table, k as usize, room, winners, controller);
    lay::report(solved, answer)
}

// Joins two tables into one.
pub fn desk_join(first: &[u8], second: &[u8], out: &mut [u8], answer: &mut [u8]) -> u32
    ensures { joins result out.new answer.new
        ≡ called_join first.now second.now out.old answer.old }
{
    if answer.len() < 24 {
        return Refusal::Room as u32;
    }
    let joined = join::join(first, second, out);
    lay::report(joined, answer)
}

// Solves two tables by parts.
pub fn desk_parts(
    first: &[u8],
    second: &[u8],
    k: u32,
    room: u32,
    winners: &mut [u8],
    controller: &mut [u8],
    answer: &mut [u8],
) -> u32
    ensures { called result winners.new controller.new answer.new
        ≡ called_parts first.now second.now k room winners.old controller.old
        answer.old }
{
    let room = answered_room(room, answer.len());
    let solved = join::parts(first, second, k as usize, room, winners, controller);
    lay::report(solved, answer)
}

// Checks rows, whoever made them, against a table for the patience count k.
pub fn desk_check(table: &[u8], k: u32, rows: &[u8], answer: &mut [u8]) -> u32
    ensures { CalledCheck table.now k rows.now answer.old result answer.new }
{
    if 24 <= answer.len() {
        let found = checker::check(table, k as usize, rows);
        return lay::report(found, answer);
    }
    unanswered(k)
}

// The result with too short an answer's buffer: 2 comes before 3.
fn unanswered(k: u32) -> u32
    ensures { result ≡ unanswered_for k }
{
    if 7 < k {
        Refusal::Bound as u32
    } else {
        Refusal::Room as u32
    }
}

// The room for positions, or none with too short an answer's buffer: which is then refused together
// with the other room of 3.
fn answered_room(room: u32, answer: usize) -> usize
    ensures { result ≡ cond (ltb answer 24) 0 room }
{
    if answer < 24 { 0 } else { room as usize }
}
