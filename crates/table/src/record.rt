// One record: its four bytes, their limits, and the order of two records.
ghost use Rattle.std.specs.Prelude.{◌≡◌, map};
ghost use Rattle.meaning.specs.Records.{records_of, at as record_at, outside as outside_limits, ascends as ascends_to};
ghost use Rattle.meaning.specs.Table.{mark_in, start_in};
ghost use Rattle.table.specs.Packed.{record_in, of_bytes};

// The order is that of the four bytes as a byte string.
#[derive(Clone, Copy, Default, PartialEq, Eq, PartialOrd, Ord)]
pub struct Record {
    pub kind: u8,
    pub from: u8,
    pub letter: u8,
    pub to: u8,
}

impl From<[u8; 4]> for Record {
    ghost from_gives = { λ bytes r. record_in r ≡ of_bytes bytes };

    fn from(bytes: [u8; 4]) -> Record {
        let [kind, from, letter, to] = bytes;
        Record {
            kind,
            from,
            letter,
            to,
        }
    }
}

// The kinds, byte 0 of a record: the controller's turn, the world's turn, an edge on an output, an
// edge on an input.
pub const CONTROLLER: u8 = 1;

pub const WORLD: u8 = 2;

pub const OUTPUT: u8 = 3;

pub const INPUT: u8 = 4;

// The largest value of bytes 1, 2 and 3, a row a kind, from kind 1 on.
const LIMITS: [[u8; 3]; 4] = [[7, 3, 0], [7, 1, 0], [7, 7, 7], [7, 7, 7]];

// The whole records of a table's bytes, in their order.
pub fn records(bytes: &[u8]) -> &[[u8; 4]]
    ensures { map of_bytes result.now ≡ records_of bytes.now }
{
    bytes.as_chunks().0
}

// Record number i of the bytes; past the last whole record, four zeros.
pub fn at(bytes: &[u8], i: usize) -> Record
    ensures { record_in result ≡ record_at (records_of bytes.now) i }
{
    match records(bytes).get(i) {
        Some(record) => Record::from(*record),
        None => Record::default(),
    }
}

// Whether a byte lies outside the table of limits.
#[tactic(auto, unfolding(meaning::specs::Records::outside, meaning::specs::Records::limit, meaning::specs::Records::limits))]
pub fn outside(r: Record) -> bool
    ensures { result ≡ outside_limits (record_in r) }
{
    if !(CONTROLLER..=INPUT).contains(&r.kind) {
        return true;
    }
    let [from, letter, to] = LIMITS[usize::from(r.kind) - 1];
    from < r.from || letter < r.letter || to < r.to
}

// The mark of a state's record.
#[tactic(auto, unfolding(meaning::specs::Table::mark_in))]
pub fn mark(r: Record) -> u8
    ensures { result ≡ mark_in (record_in r) }
{
    r.letter % 2
}

// Whether a state's record says that it is a start.
#[tactic(auto, unfolding(meaning::specs::Table::start_in))]
pub fn is_start(r: Record) -> bool
    ensures { result ≡ start_in (record_in r) }
{
    r.letter / 2 == 1
}

// Whether the second record is above the first, compared as byte strings.
pub fn ascends(a: Record, b: Record) -> bool
    ensures { result ≡ ascends_to (record_in a) (record_in b) }
{
    a < b
}
