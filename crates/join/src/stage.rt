// The stages of solving by parts: each table alone, and the joined one from the pairs of their
// winners.
ghost use Rattle.std.specs.Prelude.{◌≡◌, false, ◌≤◌, length};
ghost use Rattle.meaning.specs.Checks.{room as room_for};
ghost use Rattle.meaning.specs.Answers.{told, solved};
ghost use Rattle.lists.specs.Members.{positions};
ghost use Rattle.joined.specs.Joined.{ReadBoth};
ghost use Rattle.join.specs.Parts.{FirstPairs, last_stage, in_turn};

use crate::beside;
use game::stage;
use joined::pair::Tables;
use lists::List;
use meaning::{Answer, Fault};
use table::read;

// The last stage: the rounds of the joined table from the list of pairs, and what they come to.
fn last(
    tables: Tables,
    first: &[u8],
    second: &[u8],
    k: usize,
    room: usize,
    list: &[u64],
    winners: &mut [u8],
    controller: &mut [u8],
) -> Result<Answer, Fault>
    requires pass { (k ≤ 7) × ((room_for room winners.old controller.old).failed ≡ false)
        × ReadBoth first.now second.now tables }
    requires pairs { FirstPairs first.now second.now k (positions list.now) }
    ensures { solved (told result) winners.new controller.new
        ≡ last_stage first.now second.now k room winners.old controller.old }
{
    let mut bytes = [0u8; 4160];
    let size = joined::write(tables, first, second, &mut bytes);
    let table = read::read(&bytes[..size]);
    stage::stage(table, k, room, list, winners, controller)
}

// The three stages of two tables that pass: each alone, and the joined one from the first list of
// pairs.
pub fn in_turn(
    tables: Tables,
    first: &[u8],
    second: &[u8],
    k: usize,
    room: usize,
    winners: &mut [u8],
    controller: &mut [u8],
) -> Result<Answer, Fault>
    requires { (k ≤ 7) × ((room_for room winners.old controller.old).failed ≡ false)
        × ReadBoth first.now second.now tables }
    ensures { solved (told result) winners.new controller.new
        ≡ in_turn first.now second.now k room winners.old controller.old }
{
    let one = tables.first;
    let two = tables.second;
    let mut ones = List::new();
    rounds::settle_all(one, k, room, &mut ones).map_err(|full| Fault::from(full).of_table(1))?;
    let mut twos = List::new();
    rounds::settle_all(two, k, room, &mut twos).map_err(|full| Fault::from(full).of_table(2))?;
    let mut list = List::new();
    beside::pairs(&ones, &twos, one.controllers, &mut list, room)?;
    last(tables, first, second, k, room, &list, winners, controller)
}
