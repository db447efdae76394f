// The rounds: from the list of W(r) to that of W(r + 1) by each input and each output in turn, until
// the list repeats.
#![tactic(auto)]

ghost use Rattle.std.specs.Prelude.{◌≤◌, ◌<◌, length};
ghost use Rattle.meaning.specs.Rounds.{all_safe};
ghost use Rattle.meaning.specs.Table.{Small};
ghost use Rattle.table.specs.Packed.{table_in};
ghost use Rattle.lists.specs.Members.{positions};
ghost use Rattle.sets.specs.Engine.{list_a, list_b, next_list};
ghost use Rattle.rounds.specs.Rounds.{covered_by, FirstList, widest_a, widest_b, widest_of, HoldsLast, Settles};

use arrayvec::ArrayVec;
use counts::position;
use lists::{List, words};
use table::Table;
use tops::Full;

// A(r, all inputs) from W(r): all safe positions, cut by each input.
fn all_inputs(table: Table, k: usize, room: usize, w: &[u64], a: &mut List) -> Result<(), Full>
    requires { (k ≤ 7) × (length w.now ≤ 256) × (1 ≤ room) × (room ≤ 256) }
    ensures { HoldsLast room (widest_a k (table_in table) (positions w.now))
        (list_a k (table_in table) (positions w.now) (table_in table).inputs) a.new.items result }
{
    a.clear();
    a.push(position::brim(k, table.worlds));
    for input in 0..table.inputs {
        sets::cut(w, steps::on_input(table, input), k, a, room)?;
    }
    Ok(())
}

// B(r, all outputs) from A(r, all inputs): no position, widened by each output.
fn all_outputs(table: Table, k: usize, room: usize, v: &[u64], b: &mut List) -> Result<(), Full>
    requires { (k ≤ 7) × (length v.now ≤ 256) × (room ≤ 256) }
    ensures { HoldsLast room (widest_b k (table_in table) (positions v.now))
        (list_b k (table_in table) (positions v.now) (table_in table).outputs) b.new.items result }
{
    b.clear();
    for output in 0..table.outputs {
        sets::widen(v, steps::on_output(table, output), k, b, room)?;
    }
    Ok(())
}

// W(r + 1) from W(r).
fn next_round(table: Table, k: usize, room: usize, w: &[u64], next: &mut List) -> Result<(), Full>
    requires { (k ≤ 7) × (length w.now ≤ 256) × (1 ≤ room) × (room ≤ 256) }
    ensures { HoldsLast room (widest_of k (table_in table) (positions w.now))
        (next_list k (table_in table) (positions w.now)) next.new.items result }
{
    let mut a = List::new();
    all_inputs(table, k, room, w, &mut a)?;
    all_outputs(table, k, room, &a, next)
}

// The rounds from the set that a list covers: "the smallest r with W(r) = W(r + 1)"; the list of winners is left in `out`.
pub fn settle<const N: usize>(
    table: Table,
    k: usize,
    room: usize,
    first: &[u64],
    out: &mut ArrayVec<u64, N>,
) -> Result<usize, Full>
    requires { (k ≤ 7) × (1 ≤ room) × (room ≤ 256) × FirstList k (table_in table) (positions first.now) × (room ≤ N) }
    ensures { Settles k (table_in table) (covered_by (table_in table).controllers (positions first.now)) room out.new.items result }
{
    if room < first.len() {
        return Err(Full);
    }
    let mut w = List::try_from(first).unwrap();
    let mut rounds = 0;
    let settled = loop {
        let mut next = List::new();
        next_round(table, k, room, &w, &mut next)?;
        if words::same(&w, &next) {
            break w;
        }
        w = next;
        rounds += 1;
    };
    words::copy(&settled, out);
    Ok(rounds)
}

// The rounds from W(0) as all safe positions.
pub fn settle_all<const N: usize>(
    table: Table,
    k: usize,
    room: usize,
    out: &mut ArrayVec<u64, N>,
) -> Result<usize, Full>
    requires { (k ≤ 7) × (1 ≤ room) × (room ≤ 256) × Small (table_in table) × (0 < (table_in table).outputs) × (room ≤ N) }
    ensures { Settles k (table_in table) (all_safe k (table_in table).controllers) room out.new.items result }
{
    settle(table, k, room, &[position::brim(k, table.controllers)], out)
}
