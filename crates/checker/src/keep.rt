// The largest counts of the runs that can be in each controller state, raised until nothing changes.
ghost use Rattle.std.specs.Prelude.{◌≡◌, ◌↔◌, true, ◌+◌};
ghost use Rattle.meaning.specs.Lists.{smallest};
ghost use Rattle.meaning.specs.Play.{Realizes, rows_in, row_next};
ghost use Rattle.meaning.specs.Controller.{has_rows, inputs_in, followed};
ghost use Rattle.table.specs.Packed.{table_in};
ghost use Rattle.checker.specs.Begun.{BegunOnSome, Settled};
ghost use Rattle.checker.specs.Followable.{Followable};

use crate::lead::Play;
use crate::most::Counts;
use counts::{position, word};
use table::Table;

// Whether following the rows keeps every run to k.
pub fn keeps(table: Table, k: usize, rows: &[u8]) -> bool
    requires { Followable k (table_in table) rows.now }
    ensures { (result ≡ true) ↔ Realizes k (table_in table) (followed rows.now) }
{
    let begins = position::start(table.starts, table.controller_marks, table.controllers, k);
    // a run visits its first state too
    word::safe(begins, k) && settles(&Play::new(table, k, rows), begins)
}

// Raises the counts of the states until nothing changes, from the start position on: whether no run
// overruns k. Only a state whose counts have risen is led on again, and each of its eight counts can rise
// k + 2 times.
fn settles(play: &Play, begins: u64) -> bool
    requires { BegunOnSome play.now begins }
    ensures { Settled play.now begins result }
{
    let mut counts = Counts::of(play.controller.first(), begins);
    let mut from = 0;
    loop {
        let Some(s) = counts.first_risen(from) else {
            return true;
        };
        counts.take(s);
        if !play.by_round(s, &mut counts) {
            return false;
        }
        from = lowest(play, s);
    }
}

// The lowest of the states that state s leads on to and of the one after s: no state below is flagged when
// s, the first that was, has been led on.
fn lowest(play: &Play, s: u8) -> usize
    requires { has_rows (rows_in play.now.controller) s ≡ true }
    ensures { result ≡ smallest (s + 1) (inputs_in (rows_in play.now.controller)) (row_next (rows_in play.now.controller) s) }
{
    let controller = &play.controller;
    (0..controller.inputs())
        .map(|i| controller.next(s, i) as usize)
        .fold(s as usize + 1, usize::min)
}
