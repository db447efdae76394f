// From the settled list to the answer. Nothing can be refused any more once a byte is written.
ghost use Rattle.std.specs.Prelude.{◌≡◌};
ghost use Rattle.meaning.specs.Answers.{told, solved};
ghost use Rattle.table.specs.Packed.{table_in};
ghost use Rattle.lists.specs.Members.{positions};
ghost use Rattle.writing.specs.Playable.{Playable};
ghost use Rattle.game.specs.Finished.{finished, Roomy};

use counts::position;
use meaning::{Answer, Fault, Refusal, Verdict};
use table::Table;

// The answer of a settled list, with the winners written, and the rows if the start position wins.
pub fn finish(
    table: Table,
    k: usize,
    list: &[u64],
    rounds: usize,
    winners: &mut [u8],
    controller: &mut [u8],
) -> Result<Answer, Fault>
    requires { Playable k (table_in table) (positions list.now) × Roomy (positions list.now) winners.old controller.old }
    ensures { solved (told result) winners.new controller.new
        ≡ finished k (table_in table) (positions list.now) rounds winners.old controller.old }
{
    if list.is_empty() {
        return Err(Refusal::Nothing.at(0));
    }
    writing::write_winners(list, winners);
    let begins = position::start(table.starts, table.controller_marks, table.controllers, k);
    let verdict = match writing::covering(list, begins) {
        Some(start) => {
            writing::write_rows(table, k, list, start, controller);
            Verdict::Realizable(start)
        }
        None => Verdict::Unrealizable,
    };
    Ok(Answer {
        verdict,
        place: 0,
        which: 0,
        rounds,
        winners: list.len(),
    })
}
