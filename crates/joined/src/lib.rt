// The joined table of two that may be joined: kind by kind, the first table's records and then the
// second's, renumbered.
#![tactic(auto)]

pub mod pair;

ghost use Rattle.std.specs.Prelude.{◌≡◌, [], ◌∷◌, ◌+◌, ◌≤◌, length};
ghost use Rattle.meaning.specs.Lists.{written};
ghost use Rattle.meaning.specs.Records.{records_of, bytes_of};
ghost use Rattle.meaning.specs.Join.{renumber as renumbered, upward as moved_upward, joined_bytes};
ghost use Rattle.meaning.specs.Checks.{table_checks, Passes};
ghost use Rattle.table.specs.Packed.{record_in};
ghost use Rattle.joined.specs.Joined.{ReadBoth, moved_bytes, Stored};

use crate::pair::Tables;
use table::record;
use table::record::Record;

// How far the states of each side are renumbered upward.
#[derive(Clone, Copy)]
struct Sides {
    controllers: u8,
    worlds: u8,
}

// Writes the joined table of two tables that pass, and answers the number of its bytes.
pub fn write(tables: Tables, first: &[u8], second: &[u8], out: &mut [u8]) -> usize
    requires pass { ReadBoth first.now second.now tables }
    requires room { 4160 ≤ length out.old }
    ensures size { result ≡ length (joined_bytes first.now second.now) }
    ensures bytes { out.new ≡ written (joined_bytes first.now second.now) out.old }
{
    let none = Sides {
        controllers: 0,
        worlds: 0,
    };
    let up = Sides {
        controllers: tables.first.controllers as u8,
        worlds: tables.first.worlds as u8,
    };
    let mut end = 0;
    for kind in record::CONTROLLER..=record::INPUT {
        end = append(first, kind, none, out, end);
        end = append(second, kind, up, out, end);
    }
    end
}

// Writes a table's records of one kind, renumbered, from a place on, and answers the next place.
fn append(bytes: &[u8], kind: u8, up: Sides, out: &mut [u8], start: usize) -> usize
    requires pass { Passes (table_checks 0 bytes.now) }
    requires few { (up.controllers ≤ 8) × (up.worlds ≤ 8) }
    requires room { start + length (moved_bytes up.controllers up.worlds kind (records_of bytes.now)) ≤ length out.old }
    ensures { Stored out.old start (moved_bytes up.controllers up.worlds kind (records_of
        bytes.now)) out.new result }
{
    let mut end = start;
    for r in record::records(bytes) {
        let r = Record::from(*r);
        if r.kind == kind {
            end = put(renumber(r, up), out, end);
        }
    }
    end
}

// Writes a record's four bytes at a place, and answers the next place.
fn put(r: Record, out: &mut [u8], start: usize) -> usize
    requires { start + 4 ≤ length out.old }
    ensures { Stored out.old start (bytes_of (record_in r ∷ [])) out.new result }
{
    out[start..start + 4].copy_from_slice(&[r.kind, r.from, r.letter, r.to]);
    start + 4
}

// A record with its states renumbered upward, each side for itself; letters stay.
#[tactic(auto, unfolding(meaning::specs::Join::renumber))]
fn renumber(r: Record, up: Sides) -> Record
    requires states { (r.from ≤ 7) × (r.to ≤ 7) }
    requires few { (up.controllers ≤ 8) × (up.worlds ≤ 8) }
    ensures { record_in result ≡ renumbered up.controllers up.worlds (record_in r) }
{
    match r.kind {
        record::CONTROLLER => upward(r, up.controllers, 0),
        record::WORLD => upward(r, up.worlds, 0),
        record::OUTPUT => upward(r, up.controllers, up.worlds),
        _ => upward(r, up.worlds, up.controllers),
    }
}

// A record whose first state is higher by `here`, and whose second by `there`.
#[tactic(auto, unfolding(meaning::specs::Join::upward))]
fn upward(r: Record, here: u8, there: u8) -> Record
    requires { (here + r.from ≤ 255) × (there + r.to ≤ 255) }
    ensures { record_in result ≡ moved_upward here there (record_in r) }
{
    Record {
        from: here + r.from,
        to: there + r.to,
        ..r
    }
}
