// The game: from a table to the verdict, with the winners and the controller's rows written.
#![tactic(auto)]

pub mod finish;
pub mod stage;

ghost use Rattle.std.specs.Prelude.{◌≡◌, ◌||◌, ◌*◌, eqb, ltb};
ghost use Rattle.meaning.specs.Answers.{solve as solve_of, told, solved};

use counts::position;
use meaning::{Answer, Fault, Refusal};
use table::checks;

// Solves a table for the patience count k, with room for so many positions: the winners, the
// controller's rows and the answer.
pub fn solve(
    table: &[u8],
    k: usize,
    room: usize,
    winners: &mut [u8],
    controller: &mut [u8],
) -> Answer
    ensures { solved result winners.new controller.new
        ≡ solve_of table.now k room winners.old controller.old }
{
    checked(table, k, room, winners, controller).unwrap_or_else(Answer::from)
}

// The checks in their order, and then the one stage.
fn checked(
    table: &[u8],
    k: usize,
    room: usize,
    winners: &mut [u8],
    controller: &mut [u8],
) -> Result<Answer, Fault>
    ensures { solved (told result) winners.new controller.new
        ≡ solve_of table.now k room winners.old controller.old }
{
    if 7 < k {
        return Err(Refusal::Bound.at(0));
    }
    if small_room(room, winners.len(), controller.len()) {
        return Err(Refusal::Room.at(0));
    }
    let table = checks::check(table)?;
    let first = [position::brim(k, table.controllers)];
    stage::stage(table, k, room, &first, winners, controller)
}

// 3: a room not 1 to 256, or a winners or controller buffer of too few bytes for it.
pub fn small_room(room: usize, winners: usize, controller: usize) -> bool
    ensures { result ≡ (eqb room 0 || ltb 256 room || ltb winners (8 * room) || ltb controller (32 * room)) }
{
    room == 0 || 256 < room || winners < 8 * room || controller < 32 * room
}
