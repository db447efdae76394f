// The winners' bytes and the controller's rows, from the list of winners.
#![tactic(auto)]

ghost use Rattle.std.specs.Prelude.{◌≡◌, [], ◌∷◌, ◌*◌, ◌≤◌, ◌<◌, length};
ghost use Rattle.meaning.specs.Lists.{written};
ghost use Rattle.meaning.specs.Written.{winners_bytes, covering as covering_of, output_of, row_bytes, rows_of_state, leads_back, rows_from};
ghost use Rattle.meaning.specs.Counting.{covered};
ghost use Rattle.counts.specs.Words.{counts_in};
ghost use Rattle.table.specs.Packed.{table_in};
ghost use Rattle.steps.specs.Bounded.{Bounded};
ghost use Rattle.lists.specs.Members.{positions};
ghost use Rattle.writing.specs.Playable.{state_at, within, Playable};

use counts::{count, position, word};
use lists::words;
use table::Table;

// The winners: 8 bytes a position, each holding a count one higher.
pub fn write_winners(list: &[u64], winners: &mut [u8])
    requires { 8 * length list.now ≤ length winners.old }
    ensures { winners.new ≡ written (winners_bytes (positions list.now)) winners.old }
{
    for b in 0..8 * list.len() {
        winners[b] = count::to_byte(position::at(list[b / 8], b % 8));
    }
}

// The place of the first winner that the position is below.
pub fn covering(list: &[u64], p: u64) -> Option<usize>
    ensures { result ≡ within (length list.now) (covering_of (positions list.now) (counts_in p)) }
{
    list.iter().position(|m| word::compare(p, *m).at_most())
}

// Whether every input leads back into the set that the list covers, after the letter as output.
fn leads_back(table: Table, k: usize, list: &[u64], p: u64, letter: usize) -> bool
    requires { Bounded k (table_in table) }
    ensures { result ≡ leads_back k (table_in table) (covered (positions list.now)) (counts_in p) letter }
{
    (0..table.inputs).all(|input| words::covers(
        list,
        steps::after_round(table, k, p, letter, input),
    ))
}

// The smallest letter from which every input leads back.
pub fn output_of(table: Table, k: usize, list: &[u64], p: u64) -> Option<usize>
    requires { Bounded k (table_in table) }
    ensures { result ≡ within (table_in table).outputs (output_of k (table_in table) (covered (positions list.now)) (counts_in p)) }
{
    (0..table.outputs).find(|letter| leads_back(table, k, list, p, *letter))
}

// The rows of one state, inputs ascending, at the front of the buffer.
#[tactic(auto, unfolding(table::specs::Packed::table_in))]
fn write_state(table: Table, k: usize, list: &[u64], state: usize, controller: &mut [u8])
    requires { (state < length list.now) × Playable k (table_in table) (positions list.now) × (table.inputs * 4 ≤ length controller.old) }
    ensures { controller.new
        ≡ written (row_bytes (rows_of_state k (table_in table) (covered (positions list.now)) (positions list.now) state)) controller.old }
{
    let p = list[state];
    let output = output_of(table, k, list, p).unwrap();
    for input in 0..table.inputs {
        let next = covering(list, steps::after_round(table, k, p, output, input)).unwrap();
        let row = [state as u8, output as u8, input as u8, next as u8];
        controller[4 * input..4 * input + 4].copy_from_slice(&row);
    }
}

// The state whose rows are block b: the start first, then the others in their order.
#[tactic(auto, unfolding(crate::specs::Playable::state_at))]
fn state_at(start: usize, b: usize) -> usize
    ensures { result ≡ state_at start b }
{
    if b == 0 {
        start
    } else if b <= start {
        b - 1
    } else {
        b
    }
}

// The controller's rows: the start state's first, then the others by state.
#[tactic(auto, using(crate::proofs::Blocks::blocks_fit), unfolding(table::specs::Packed::table_in))]
pub fn write_rows(table: Table, k: usize, list: &[u64], start: usize, controller: &mut [u8])
    requires { (start < length list.now) × Playable k (table_in table) (positions list.now)
        × (32 * length list.now ≤ length controller.old) }
    ensures { controller.new
        ≡ written (row_bytes (rows_from k (table_in table) (covered (positions list.now)) (positions list.now) start)) controller.old }
{
    for b in 0..list.len() {
        let at = b * table.inputs * 4;
        write_state(table, k, list, state_at(start, b), &mut controller[at..]);
    }
}
