// A controller followed on a table, in words: its states' counts led a round on, input by input.
ghost use Rattle.std.specs.Prelude.{◌≡◌, true, ◌≤◌};
ghost use Rattle.meaning.specs.Play.{rows_in};
ghost use Rattle.meaning.specs.Controller.{has_rows};
ghost use Rattle.counts.specs.Words.{counts_in, mark_counts, SpreadsOf, SteppedForward};
ghost use Rattle.table.specs.Packed.{table_in};
ghost use Rattle.checker.specs.Followable.{Followable};
ghost use Rattle.checker.specs.Stepped.{Steps};
ghost use Rattle.checker.specs.LedByRound.{LedByInput, LedByRound};

use crate::most::Counts;
use counts::word;
use rows::Controller;
use table::Table;

// One side's half of a round in words: the spreads of its targets for each letter, and its marks.
#[derive(Drop)]
pub struct Turn {
    pub spreads: [u64; 64],
    pub marks: u64,
}

impl Turn {
    // The half that a table's targets and marks state.
    fn new(targets: [u8; 64], marks: [u8; 8]) -> Turn
        ensures spread { SpreadsOf targets result.spreads }
        ensures marked { counts_in result.marks ≡ mark_counts marks }
    {
        Turn {
            spreads: word::spreads(targets),
            marks: word::marks(marks),
        }
    }

    // The counts after the half on a letter.
    fn forward(&self, word: u64, letter: usize, k: usize) -> u64
        requires { k ≤ 7 }
        ensures { SteppedForward self.now.spreads letter self.now.marks k word result }
    {
        word::forward(word, &self.spreads, letter, self.marks, k)
    }
}

// What states are led on by: a patience count, a controller, and the words of both sides' halves of a round.
#[derive(Drop)]
pub struct Play<'a> {
    pub k: usize,
    pub controller: Controller<'a>,
    pub outputs: Turn,
    pub inputs: Turn,
}

impl<'a> Play<'a> {
    // The play of rows on a table.
    pub fn new(table: Table, k: usize, rows: &'a [u8]) -> Play<'a>
        requires { Followable k (table_in table) rows.now }
        ensures patience { result.k ≡ k }
        ensures rows { result.controller ≡ rows.now }
        ensures steps { Steps (table_in table) result.outputs result.inputs }
    {
        Play {
            k,
            controller: Controller::new(rows),
            outputs: Turn::new(table.output_targets, table.world_marks),
            inputs: Turn::new(table.input_targets, table.controller_marks),
        }
    }

    // Leads a middle position on by one input, to the counts of the next state; false if that is not safe.
    fn by_input(&self, middle: u64, input: usize, next: u8, counts: &mut Counts) -> bool
        requires { self.now.k ≤ 7 }
        ensures { LedByInput self.now.k self.now.inputs middle input next counts.old counts.new result }
    {
        let after = self.inputs.forward(middle, input, self.k);
        if !word::safe(after, self.k) {
            return false;
        }
        counts.raise(next, after);
        true
    }

    // Leads the counts of state s a round on, to those of each next state; false if a run overruns k.
    pub fn by_round(&self, s: u8, counts: &mut Counts) -> bool
        requires { (self.now.k ≤ 7) × (has_rows (rows_in self.now.controller) s ≡ true) }
        ensures { LedByRound self.now s counts.old counts.new result }
    {
        let output = self.controller.output(s) as usize;
        let middle = self
            .outputs
            .forward(counts.most[s as usize], output, self.k);
        for i in 0..self.controller.inputs() {
            if !self.by_input(middle, i, self.controller.next(s, i), counts) {
                return false;
            }
        }
        true
    }
}
