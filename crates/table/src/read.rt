// The table that the records state: each part of it is one pass over the records.
ghost use Rattle.std.specs.Prelude.{◌≡◌, ◌&&◌, length, eqb, ltb};
ghost use Rattle.meaning.specs.Records.{records_of, of_kind};
ghost use Rattle.meaning.specs.Table.{table_of, letters as letters_of, mark_of, starts_of, edge_of};
ghost use Rattle.masks.specs.Mask.{mask};
ghost use Rattle.table.specs.Packed.{packed, marks as marks_of, targets as targets_of};

use crate::record::Record;
use crate::{Table, record};

// The table of the bytes, whatever they are: states and letters past the eighth are left out.
#[tactic(auto, unfolding(meaning::specs::Table::table_of, crate::specs::Packed::packed))]
pub fn read(bytes: &[u8]) -> Table
    ensures { result ≡ packed (table_of (records_of bytes.now)) }
{
    Table {
        controllers: states(bytes, record::CONTROLLER),
        worlds: states(bytes, record::WORLD),
        outputs: letters(bytes, record::OUTPUT),
        inputs: letters(bytes, record::INPUT),
        starts: starts(bytes),
        controller_marks: marks(bytes, record::CONTROLLER),
        world_marks: marks(bytes, record::WORLD),
        output_targets: targets(bytes, record::OUTPUT),
        input_targets: targets(bytes, record::INPUT),
    }
}

// How many state records of a kind there are.
fn states(bytes: &[u8], kind: u8) -> usize
    ensures { result ≡ length (of_kind kind (records_of bytes.now)) }
{
    record::records(bytes)
        .iter()
        .map(|r| Record::from(*r))
        .filter(|r| r.kind == kind)
        .count()
}

// One more than the largest letter of a kind, or 0.
pub fn letters(bytes: &[u8], kind: u8) -> usize
    ensures { result ≡ letters_of kind (records_of bytes.now) }
{
    let edges = record::records(bytes)
        .iter()
        .map(|r| Record::from(*r))
        .filter(|r| r.kind == kind);
    edges.map(|r| usize::from(r.letter) + 1).max().unwrap_or(0)
}

// The start states, as eight bits.
fn starts(bytes: &[u8]) -> u8
    ensures { result ≡ mask 8 (starts_of (records_of bytes.now)) }
{
    let mut set = 0;
    let mut q = 0;
    for r in record::records(bytes) {
        let r = Record::from(*r);
        if r.kind == record::CONTROLLER {
            if record::is_start(r) {
                set = masks::with_state(set, q);
            }
            q += 1;
        }
    }
    set
}

// The marks of one side's states.
fn marks(bytes: &[u8], kind: u8) -> [u8; 8]
    ensures { result ≡ marks_of (mark_of kind (records_of bytes.now)) }
{
    let mut marks = [0; 8];
    let mut q = 0;
    for r in record::records(bytes) {
        let r = Record::from(*r);
        if r.kind == kind {
            if q < 8 {
                marks[q] = record::mark(r);
            }
            q += 1;
        }
    }
    marks
}

// For each letter and state of a kind's edges one byte of targets, set bit by bit.
fn targets(bytes: &[u8], kind: u8) -> [u8; 64]
    ensures { result ≡ targets_of (edge_of kind (records_of bytes.now)) }
{
    let mut masks = [0; 64];
    for r in record::records(bytes) {
        let r = Record::from(*r);
        if is_edge(r, kind) {
            let k = usize::from(r.letter) * 8 + usize::from(r.from);
            masks[k] = masks::with_state(masks[k], usize::from(r.to));
        }
    }
    masks
}

// Whether a record is an edge of a kind, from one of eight states on one of eight letters.
fn is_edge(r: Record, kind: u8) -> bool
    ensures { result ≡ (eqb r.kind kind && ltb r.from 8 && ltb r.letter 8) }
{
    r.kind == kind && r.from < 8 && r.letter < 8
}
