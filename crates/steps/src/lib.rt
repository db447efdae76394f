// The steps of a table that was read: one letter's half of a round, and a whole round of a position.
#![tactic(auto)]

ghost use Rattle.std.specs.Prelude.{◌≡◌, ◌+◌, ◌*◌, get_or};
ghost use Rattle.meaning.specs.Lists.{tab};
ghost use Rattle.meaning.specs.Table.{on_output, on_input};
ghost use Rattle.meaning.specs.Written.{position_bytes, after_round};
ghost use Rattle.counts.specs.Halves.{half_of};
ghost use Rattle.counts.specs.Words.{counts_in};
ghost use Rattle.table.specs.Packed.{table_in, edge_in};
ghost use Rattle.steps.specs.Bounded.{Bounded};

use counts::position;
use counts::position::Half;
use std::array;
use table::Table;

// The half of a round on an output; past the eighth letter it has no edges.
#[tactic(auto, unfolding(table::specs::Packed::table_in))]
pub fn on_output(table: Table, letter: usize) -> Half
    ensures { half_of result ≡ on_output (table_in table) letter }
{
    on_letter(
        table.output_targets,
        letter,
        table.controllers,
        table.worlds,
        table.world_marks,
    )
}

// The half of a round on an input; past the eighth letter it has no edges.
#[tactic(auto, unfolding(table::specs::Packed::table_in))]
pub fn on_input(table: Table, letter: usize) -> Half
    ensures { half_of result ≡ on_input (table_in table) letter }
{
    on_letter(
        table.input_targets,
        letter,
        table.worlds,
        table.controllers,
        table.controller_marks,
    )
}

// One letter's half of a round: for each source its byte of targets on the letter, and none past the eighth letter.
fn on_letter(bytes: [u8; 64], letter: usize, sources: usize, targets: usize, marks: [u8; 8]) -> Half
    ensures { half_of result ≡ record {
      sources = sources;
      targets = targets;
      edge = edge_in bytes letter;
      mark = λ q. get_or marks q 0;
    } }
{
    let masks = array::from_fn(|p| if letter < 8 { bytes[letter * 8 + p] } else { 0 });
    Half {
        sources,
        targets,
        masks,
        marks,
    }
}

// The position after a round: an output, then an input.
pub fn after_round(table: Table, k: usize, p: u64, output: usize, input: usize) -> u64
    requires { Bounded k (table_in table) }
    ensures { counts_in result ≡ position_bytes (after_round k (table_in table) output input (counts_in p)) }
{
    let middle = position::forward(p, on_output(table, output), k);
    position::forward(middle, on_input(table, input), k)
}
