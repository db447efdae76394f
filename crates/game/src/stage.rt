// One stage: from a table that was read and its first list to what the rounds come to.
ghost use Rattle.std.specs.Prelude.{◌≡◌, false, ◌≤◌};
ghost use Rattle.meaning.specs.Checks.{room as room_for};
ghost use Rattle.meaning.specs.Answers.{told, solved, staged};
ghost use Rattle.table.specs.Packed.{table_in};
ghost use Rattle.lists.specs.Members.{positions};
ghost use Rattle.rounds.specs.Rounds.{covered_by, FirstList};
ghost use Rattle.game.specs.Finished.{Fit};

use crate::finish;
use lists::List;
use meaning::{Answer, Fault};
use table::Table;

// The rounds from a first list, and then the winners, the rows and the answer; or FULL.
pub fn stage(
    table: Table,
    k: usize,
    room: usize,
    first: &[u64],
    winners: &mut [u8],
    controller: &mut [u8],
) -> Result<Answer, Fault>
    requires bounds { (k ≤ 7) × ((room_for room winners.old controller.old).failed ≡ false) × Fit (table_in table) }
    requires list { FirstList k (table_in table) (positions first.now) }
    ensures { solved (told result) winners.new controller.new ≡ staged k room (table_in table)
        (covered_by (table_in table).controllers (positions first.now)) winners.old controller.old }
{
    let mut list = List::new();
    let rounds = rounds::settle(table, k, room, first, &mut list)?;
    finish::finish(table, k, &list, rounds, winners, controller)
}
