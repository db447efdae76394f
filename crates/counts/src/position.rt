// One position, count by count. It stands in a 64-bit word: a byte for each of its eight counts, one higher, the first in the
// highest; 0 where no run is and where the side has no state.
ghost use Rattle.std.specs.Prelude.{◌≡◌, ℕ, ◌≤◌, ◌<◌, ◌+◌};
ghost use Rattle.meaning.specs.Lists.{largest, tab};
ghost use Rattle.meaning.specs.Counting.{one_higher, count as count_of, forward as forward_by};
ghost use Rattle.meaning.specs.Written.{position_bytes};
ghost use Rattle.counts.specs.Halves.{half_of, brought, start_counts};
ghost use Rattle.counts.specs.Words.{counts_in, CountsGiven};

use crate::count;
use std::array;

// One letter's half of a round: for each source a byte of targets, for each target its mark.
#[derive(Clone, Copy)]
pub struct Half {
    pub sources: usize,
    pub targets: usize,
    pub masks: [u8; 8],
    pub marks: [u8; 8],
}

// The count of state q.
pub fn at(m: u64, q: usize) -> i8
    requires { q < 8 }
    ensures { one_higher result ≡ count_of (counts_in m) q }
{
    count::from_byte(((m >> (56 - 8 * q)) % 128) as u8)
}

// The word whose byte for each state q is byte(q): a count one higher, and the top bit is no part of it.
#[inline]
pub fn of_bytes<F: Fn(usize) -> u8>(byte: F) -> u64
    requires { (q : ℕ) → q < 8 → F.pre byte q }
    ensures { CountsGiven (F.post byte) result }
{
    u64::from_be_bytes(array::from_fn(byte))
}

// The largest count that a letter's edges bring to state q.
fn arriving(m: u64, half: Half, q: usize, k: usize) -> i8
    requires { k ≤ 7 }
    ensures { one_higher result ≡ largest half.sources (brought k half (counts_in m) q) }
{
    let mut most = -1i8;
    if 8 <= q {
        return most;
    }
    for p in 0..8 {
        if p < half.sources && masks::has(half.masks[p], q) {
            most = most.max(count::plus(at(m, p), half.marks[q], k));
        }
    }
    most
}

// The step forward by a letter.
pub fn forward(m: u64, half: Half, k: usize) -> u64
    requires { k ≤ 7 }
    ensures { counts_in result ≡ position_bytes (forward_by k (half_of half) (counts_in m)) }
{
    of_bytes(|q| {
        if q < half.targets {
            count::to_byte(arriving(m, half, q, k))
        } else {
            0
        }
    })
}

// The one maximal safe position of a side of n states: K at each.
pub fn brim(k: usize, n: usize) -> u64
    requires { k ≤ 7 }
    ensures { counts_in result ≡ position_bytes (tab n (λ _. k + 1)) }
{
    of_bytes(|q| if q < n { k as u8 + 1 } else { 0 })
}

// The start position of a side of n states: at each start state 0 plus its mark, capped as any count.
pub fn start(starts: u8, marks: [u8; 8], n: usize, k: usize) -> u64
    requires { k ≤ 7 }
    ensures { counts_in result ≡ position_bytes (start_counts k n starts marks) }
{
    of_bytes(|q| {
        if q < n && masks::has(starts, q) {
            count::to_byte(count::plus(0, marks[q], k))
        } else {
            0
        }
    })
}
