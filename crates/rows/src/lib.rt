// Controller rows as bytes, for themselves: whether they are well formed, how many states and inputs
// they have, a state's output and its next state for an input. Nothing of the game.
#![tactic(auto)]

ghost use Rattle.std.specs.Prelude.{◌≡◌, true, List, ℕ, suc, ◌≤◌, ◌<◌, ◌-◌, length, map};
ghost use Rattle.meaning.specs.Lists.{each, every};
ghost use Rattle.meaning.specs.Play.{rows_in, row as row_at, row_output, row_next};
ghost use Rattle.meaning.specs.Controller.{in_order, input_goes_on, output_stays, goes_on, has_rows, leads_on, well_formed};
ghost use Rattle.meaning.specs.Controller.{inputs_in, states_in, first_state};
ghost use Rattle.rows.specs.Placed.{row_of, four, Marked, Placed, Ready};

use std::marker::Model;

#[derive(Clone, Copy, Default)]
pub struct Row {
    pub state: u8,
    pub output: u8,
    pub input: u8,
    pub next: u8,
}

impl From<[u8; 4]> for Row {
    ghost from_gives = { λ bytes row. row_of row ≡ four bytes };

    fn from(bytes: [u8; 4]) -> Row {
        let [state, output, input, next] = bytes;
        Row {
            state,
            output,
            input,
            next,
        }
    }
}

// The rows that bytes hold, four bytes each.
pub fn fours(rows: &[u8]) -> &[[u8; 4]]
    ensures { map four result.now ≡ rows_in rows.now }
{
    rows.as_chunks().0
}

// Row number i of the bytes; past the last whole row, four zeros.
pub fn at(rows: &[u8], i: usize) -> Row
    ensures { row_of result ≡ row_at (rows_in rows.now) i }
{
    fours(rows)
        .get(i)
        .copied()
        .map(Row::from)
        .unwrap_or_default()
}

// The last row; with no whole row, four zeros.
fn last(rows: &[u8]) -> Row
    ensures { row_of result ≡ row_at (rows_in rows.now) (length (rows_in rows.now) - 1) }
{
    fours(rows)
        .last()
        .copied()
        .map(Row::from)
        .unwrap_or_default()
}

// The longest rows.
const MOST_BYTES: usize = 8192;

// 15: whether rows are well formed.
#[tactic(auto, unfolding(meaning::specs::Controller::well_formed))]
pub fn well_formed(rows: &[u8]) -> bool
    ensures { result ≡ well_formed rows.now }
{
    if meaning::wrong_size(rows, MOST_BYTES) {
        return false;
    }
    let first = at(rows, 0);
    let last = last(rows);
    first.input == 0 && last.input <= 7 && go_on(rows, first.state, last.input) && lead_on(rows)
}

// Whether each row goes on from the one before it.
fn go_on(rows: &[u8], first: u8, last: u8) -> bool
    ensures { result ≡ each (length (rows_in rows.now) - 1)
        (λ i. goes_on first last (row_at (rows_in rows.now) i) (row_at (rows_in rows.now) (suc i))) }
{
    (1..rows.len() / 4).all(|i| goes_on(at(rows, i - 1), at(rows, i), first, last))
}

// Whether the row b goes on from the row a.
#[tactic(auto, unfolding(meaning::specs::Controller::goes_on))]
fn goes_on(a: Row, b: Row, first: u8, last: u8) -> bool
    ensures { result ≡ goes_on first last (row_of a) (row_of b) }
{
    in_order(a, b, first) && input_goes_on(a, b, last) && output_stays(a, b)
}

// The first state's rows come first and the others ascend.
#[tactic(auto, unfolding(meaning::specs::Controller::in_order))]
fn in_order(a: Row, b: Row, first: u8) -> bool
    ensures { result ≡ in_order first (row_of a) (row_of b) }
{
    if b.state == a.state {
        return true;
    }
    if b.state == first {
        return false;
    }
    a.state == first || a.state < b.state
}

// Each state has the inputs 0 up to the last, once each in order.
#[tactic(auto, unfolding(meaning::specs::Controller::input_goes_on))]
fn input_goes_on(a: Row, b: Row, last: u8) -> bool
    ensures { result ≡ input_goes_on last (row_of a) (row_of b) }
{
    if b.state == a.state {
        return b.input as usize == a.input as usize + 1;
    }
    a.input == last && b.input == 0
}

// A state has one output.
#[tactic(auto, unfolding(meaning::specs::Controller::output_stays))]
fn output_stays(a: Row, b: Row) -> bool
    ensures { result ≡ output_stays (row_of a) (row_of b) }
{
    b.state != a.state || b.output == a.output
}

// Whether each output is at most 7 and each next state has rows.
fn lead_on(rows: &[u8]) -> bool
    ensures { result ≡ every (leads_on (rows_in rows.now)) (rows_in rows.now) }
{
    let named = named(rows);
    fours(rows).iter().all(|&[_, output, _, next]| output <= 7 && named[next as usize])
}

// Which states have rows.
fn named(rows: &[u8]) -> [bool; 256]
    ensures { Marked (rows_in rows.now) result }
{
    let mut named = [false; 256];
    for &[state, ..] in fours(rows) {
        named[state as usize] = true;
    }
    named
}

// How many inputs well-formed rows have.
pub fn inputs(rows: &[u8]) -> usize
    ensures { result ≡ inputs_in (rows_in rows.now) }
{
    last(rows).input as usize + 1
}

// How many states well-formed rows have: each has one row of input 0.
pub fn states(rows: &[u8]) -> usize
    ensures { result ≡ states_in (rows_in rows.now) }
{
    fours(rows)
        .iter()
        .filter(|&&[_, _, input, _]| input == 0)
        .count()
}

// Where each state's rows begin.
pub fn places(rows: &[u8]) -> [u16; 256]
    requires { length (rows_in rows.now) ≤ 2048 }
    ensures { Placed (rows_in rows.now) result }
{
    let mut places = [0u16; 256];
    for i in (0..rows.len() / 4).rev() {
        places[at(rows, i).state as usize] = i as u16;
    }
    places
}

// Well-formed rows, where each state's begin, and how many inputs they have.
#[derive(Drop)]
pub struct Controller<'a> {
    rows: &'a [u8],
    places: [u16; 256],
    inputs: usize,
}

// It is the bytes of its rows.
impl<'a> Model for Controller<'a> {
    ghost Value = { List ℕ };

    ghost view = { λ c. c.rows.now };

    ghost invariant = { λ c. Ready c.rows.now c.places × (c.inputs ≡ inputs_in (rows_in c.rows.now)) };
}

impl<'a> Controller<'a> {
    // The controller that rows state.
    pub fn new(rows: &'a [u8]) -> Controller<'a>
        requires { well_formed rows.now ≡ true }
        ensures { result ≡ rows.now }
    {
        Controller {
            rows,
            places: places(rows),
            inputs: inputs(rows),
        }
    }

    // The state that it starts in: that of the first row.
    pub fn first(&self) -> u8
        ensures { result ≡ first_state (rows_in self.now) }
    {
        at(self.rows, 0).state
    }

    // How many inputs it has.
    pub fn inputs(&self) -> usize
        ensures { result ≡ inputs_in (rows_in self.now) }
    {
        self.inputs
    }

    // A state's output.
    pub fn output(&self, state: u8) -> u8
        requires { has_rows (rows_in self.now) state ≡ true }
        ensures { result ≡ row_output (rows_in self.now) state }
    {
        let place = self.places[state as usize] as usize;
        at(self.rows, place).output
    }

    // A state's next state for an input.
    pub fn next(&self, state: u8, input: usize) -> u8
        requires { (has_rows (rows_in self.now) state ≡ true) × (input < inputs_in (rows_in self.now)) }
        ensures { result ≡ row_next (rows_in self.now) state input }
    {
        let place = self.places[state as usize] as usize;
        at(self.rows, place + input).next
    }
}
