// Checks 4 to 10, each over the whole table, in their order.
ghost use Rattle.std.specs.Prelude.{◌≡◌};
ghost use Rattle.meaning.specs.Lists.{place, each};
ghost use Rattle.meaning.specs.Records.{records_of, of_kind, outside};
ghost use Rattle.meaning.specs.Checks.{descent, misnumbered as not_numbered, no_start, dangling as dangling_edge, gap as gap_of};
ghost use Rattle.table.specs.Packed.{record_in, table_in, has_edge};
ghost use Rattle.table.specs.Checked.{reading_of, below};

use crate::record::Record;
use crate::{Table, read, record};
use meaning::{Fault, Refusal};

// 4: the longest table.
const MOST_BYTES: usize = 4160;

// The table, or the first check that fails and its place: the record number, from 0, for 5, 6 and
// 9, and otherwise 0.
pub fn check(bytes: &[u8]) -> Result<Table, Fault>
    ensures { result ≡ reading_of bytes.now }
{
    if meaning::wrong_size(bytes, MOST_BYTES) {
        return Err(Refusal::Length.at(0));
    }
    if let Some(bad) = first_outside(bytes) {
        return Err(Refusal::Record.at(bad));
    }
    if let Some(late) = first_descent(bytes) {
        return Err(Refusal::Order.at(late));
    }
    if misnumbered(bytes, record::CONTROLLER) || misnumbered(bytes, record::WORLD) {
        return Err(Refusal::States.at(0));
    }
    let table = read::read(bytes);
    if no_start(table) {
        return Err(Refusal::Start.at(0));
    }
    if let Some(stray) = first_dangling(bytes, table) {
        return Err(Refusal::Edge.at(stray));
    }
    if gap(table) {
        return Err(Refusal::Gap.at(0));
    }
    Ok(table)
}

// 5: the first record with a byte outside the table of limits.
fn first_outside(bytes: &[u8]) -> Option<usize>
    ensures { result ≡ below (records_of bytes.now) (place outside (records_of bytes.now)) }
{
    record::records(bytes)
        .iter()
        .position(|r| record::outside(Record::from(*r)))
}

// 6: the first record that does not ascend from the one before it.
fn first_descent(bytes: &[u8]) -> Option<usize>
    ensures { result ≡ below (records_of bytes.now) (descent (records_of bytes.now)) }
{
    let records = record::records(bytes);
    let mut neighbours = records.iter().zip(records.iter().skip(1));
    neighbours
        .position(|(before, r)| !record::ascends(Record::from(*before), Record::from(*r)))
        .map(|i| i + 1)
}

// 7: whether a side's state records aren't numbered 0, 1, 2 and so on, or the side has none. In a table in order the states come first, so
// the look for one is short.
fn misnumbered(bytes: &[u8], kind: u8) -> bool
    ensures { result ≡ not_numbered (of_kind kind (records_of bytes.now)) }
{
    let records = record::records(bytes);
    let mut states = records
        .iter()
        .map(|r| Record::from(*r))
        .filter(|r| r.kind == kind)
        .enumerate();
    let some = records.iter().any(|r| Record::from(*r).kind == kind);
    !some || !states.all(|(number, r)| usize::from(r.from) == number)
}

// 8: no start state.
#[tactic(auto, unfolding(meaning::specs::Checks::no_start, crate::specs::Packed::table_in))]
fn no_start(table: Table) -> bool
    ensures { result ≡ no_start (table_in table) }
{
    !masks::has_any(table.starts, table.controllers)
}

// 9: the first edge that names a state without a record.
fn first_dangling(bytes: &[u8], table: Table) -> Option<usize>
    ensures { result ≡ below (records_of bytes.now) (place (dangling_edge (table_in table)) (records_of bytes.now)) }
{
    record::records(bytes)
        .iter()
        .position(|r| dangling(table, Record::from(*r)))
}

// Whether a record is an edge from or to a state without a record.
#[tactic(auto, unfolding(meaning::specs::Checks::dangling, crate::specs::Packed::table_in))]
fn dangling(table: Table, r: Record) -> bool
    ensures { result ≡ dangling_edge (table_in table) (record_in r) }
{
    let from = usize::from(r.from);
    let to = usize::from(r.to);
    match r.kind {
        record::OUTPUT => table.controllers <= from || table.worlds <= to,
        record::INPUT => table.worlds <= from || table.controllers <= to,
        _ => false,
    }
}

// 10: no output, no input, or a state with no edge for some letter.
#[tactic(auto, unfolding(meaning::specs::Checks::gap, meaning::specs::Checks::total, crate::specs::Packed::table_in))]
fn gap(table: Table) -> bool
    ensures { result ≡ gap_of (table_in table) }
{
    if table.outputs == 0 || table.inputs == 0 {
        return true;
    }
    let outputs = table.output_targets;
    let inputs = table.input_targets;
    !total(outputs, table.outputs, table.controllers, table.worlds)
        || !total(inputs, table.inputs, table.worlds, table.controllers)
}

// Whether every state has an edge for each letter.
fn total(targets: [u8; 64], letters: usize, sources: usize, reached: usize) -> bool
    ensures { result ≡ each letters (λ l. each sources (has_edge targets reached l)) }
{
    (0..letters).all(|letter| total_on(targets, letter, sources, reached))
}

// Whether every state has an edge for one letter.
fn total_on(targets: [u8; 64], letter: usize, sources: usize, reached: usize) -> bool
    ensures { result ≡ each sources (has_edge targets reached letter) }
{
    (0..sources).all(|p| has_edge(targets, letter, p, reached))
}

// Whether a state has an edge for one letter.
fn has_edge(targets: [u8; 64], letter: usize, p: usize, reached: usize) -> bool
    ensures { result ≡ has_edge targets reached letter p }
{
    letter < 8 && p < 8 && masks::has_any(targets[letter * 8 + p], reached)
}
