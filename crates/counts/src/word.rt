// All counts of a position at once. A byte's top bit is no part of its count, so all eight are compared by one subtraction.
ghost use Rattle.std.specs.Prelude.{◌≡◌, ◌≤◌, ◌<◌, bit_and};
ghost use Rattle.meaning.specs.Lists.{before as before_bytes};
ghost use Rattle.meaning.specs.Counting.{safe as safe_at};
ghost use Rattle.meaning.specs.Compared.{compared};
ghost use Rattle.counts.specs.Halves.{lesser_counts, greater_counts, half_of, back_under};
ghost use Rattle.counts.specs.Words.{counts_in, flags, bar_counts, BarsOf};
ghost use Rattle.counts.specs.Words.{spread_counts, SpreadsOf, mark_counts, Charged, SteppedForward};

use crate::position::Half;
use crate::{count, position};
use meaning::Comparison;
use std::array;

// The top bit of each byte, and the bits below it.
const TOPS: u64 = 0x8080_8080_8080_8080;

const COUNTS: u64 = 0x7F7F_7F7F_7F7F_7F7F;
// One in each byte.
const ONES: u64 = 0x0101_0101_0101_0101;
// In the byte of each state that state's bit of a mask.
const BITS: u64 = 0x0102_0408_1020_4080;

// In the top bit of each byte whether the one's count is at most the other's. A byte with its top
// bit set borrows nothing from the next, whatever count is taken off.
fn at_most(a: u64, b: u64) -> u64
    ensures { result ≡ flags 8 a b }
{
    ((b | TOPS) - (a & COUNTS)) & TOPS
}

// What two positions compare to. A caller that asks for at most alone is left with one of the two subtractions.
#[tactic(auto, using(crate::proofs::Compared::compared_words))]
pub fn compare(a: u64, b: u64) -> Comparison
    ensures { result ≡ compared (counts_in a) (counts_in b) }
{
    let under = at_most(a, b) == TOPS;
    let over = at_most(b, a) == TOPS;
    match (under, over) {
        (true, true) => Comparison::Same,
        (true, false) => Comparison::Below,
        (false, true) => Comparison::Above,
        (false, false) => Comparison::Neither,
    }
}

// The lesser counts of two positions: the bytes of one where its count is at most the other's, and
// else the other's.
#[tactic(auto, using(crate::proofs::Bytes::flags_low, crate::proofs::Bytes::lesser_words))]
pub fn lesser(a: u64, b: u64) -> u64
    ensures { counts_in result ≡ lesser_counts (counts_in a) (counts_in b) }
{
    let mask = at_most(a, b) / 128 * 255;
    (a & mask) | (b - (b & mask))
}

// The greater counts of two positions: the other's bytes where the one's count is at most its own.
#[tactic(auto, using(crate::proofs::Bytes::flags_low, crate::proofs::Bytes::greater_words))]
pub fn greater(a: u64, b: u64) -> u64
    ensures { counts_in result ≡ greater_counts (counts_in a) (counts_in b) }
{
    let mask = at_most(a, b) / 128 * 255;
    (b & mask) | (a - (a & mask))
}

// Whether no count exceeds k.
#[tactic(auto, using(crate::proofs::Bytes::below_words, crate::proofs::Charging::safe_words))]
pub fn safe(word: u64, k: usize) -> bool
    requires { k ≤ 7 }
    ensures { result ≡ safe_at k (counts_in word) }
{
    at_most(word, (k as u64 + 1) * ONES) == TOPS
}

// The number by which positions are put in order: a word without its top bits.
pub fn rank(word: u64) -> u64
    ensures { result ≡ bit_and word 9187201950435737471 }
{
    word & COUNTS
}

// Whether one position comes before another, ascending as byte strings.
#[tactic(auto, using(crate::proofs::Bytes::before_words))]
pub fn before(a: u64, b: u64) -> bool
    ensures { result ≡ before_bytes (counts_in a) (counts_in b) }
{
    rank(a) < rank(b)
}

// For one target: no count where the source has an edge to it, and the highest where it has none.
fn bar(half: Half, q: usize) -> u64
    ensures { counts_in result ≡ bar_counts half.masks q }
{
    position::of_bytes(|p| if masks::has(half.masks[p], q) { 0 } else { 127 })
}

// The bars of the targets.
pub fn bars(half: Half) -> [u64; 8]
    ensures { BarsOf half.masks half.targets result }
{
    array::from_fn(|q| if q < half.targets { bar(half, q) } else { 0 })
}

// The step back by a letter: from the most that is safe to the least that each target leaves to its
// sources, all of them at once.
pub fn back(m: u64, half: Half, bars: &[u64; 8], most: u64) -> u64
    requires { BarsOf half.masks half.targets bars.now }
    ensures { counts_in result ≡ back_under (counts_in most) (half_of half) (counts_in m) }
{
    let mut low = most;
    for q in 0..8 {
        if q < half.targets {
            let eased = count::less(position::at(m, q), half.marks[q]);
            let all = count::to_byte(eased) as u64 * ONES;
            low = lesser(low, bars[q] | all);
        }
    }
    low
}

// For one source's byte of targets: the highest count at each of them, and none elsewhere. Each byte keeps its own state's bit of the
// mask, and is raised past its counts exactly if that is set.
#[tactic(auto, using(crate::proofs::Spreads::spread_words))]
fn spread(mask: u8) -> u64
    ensures { counts_in result ≡ spread_counts mask }
{
    // most bytes of a small table have no target
    if mask == 0 {
        return 0;
    }
    let own = (mask as u64 * ONES) & BITS;
    ((own + COUNTS) & TOPS) / 128 * 127
}

// The spreads of a table's bytes of targets.
pub fn spreads(targets: [u8; 64]) -> [u64; 64]
    ensures { SpreadsOf targets result }
{
    array::from_fn(|i| spread(targets[i]))
}

// Eight marks in a word, where each is at most 100.
pub fn marks(marks: [u8; 8]) -> u64
    ensures { counts_in result ≡ mark_counts marks }
{
    position::of_bytes(|q| marks[q].min(100))
}

// Charges each count with its state's mark: no run stays none, and an overrun stops at k + 2.
fn charged(most: u64, marks: u64, k: usize) -> u64
    requires { k ≤ 7 }
    ensures { Charged k marks most result }
{
    let top = (k as u64 + 2) * ONES;
    // no higher than the top, so that a byte has room for its mark
    let low = lesser(most, top);
    let present = at_most(ONES, low) / 128 * 127;
    lesser((low & COUNTS) + (marks & present), top)
}

// The step forward by a letter: to each target the largest count that its sources bring, all of
// them at once. Past the eighth letter there are no edges.
pub fn forward(word: u64, spreads: &[u64; 64], letter: usize, marks: u64, k: usize) -> u64
    requires { k ≤ 7 }
    ensures { SteppedForward spreads.now letter marks k word result }
{
    if 8 <= letter {
        return 0;
    }
    let mut most = 0u64;
    for p in 0..8 {
        let count = (word >> (56 - 8 * p)) % 128;
        // a source where no run is brings nothing
        if 0 < count {
            let all = count * ONES;
            most = greater(most, spreads[letter * 8 + p] & all);
        }
    }
    charged(most, marks, k)
}
