// Positions of two tables side by side: one pair, and all pairs of two lists.
ghost use Rattle.std.specs.Prelude.{◌≡◌, ◌≤◌, length};
ghost use Rattle.counts.specs.Words.{counts_in};
ghost use Rattle.lists.specs.Members.{positions};
ghost use Rattle.tops.specs.Held.{Holds};
ghost use Rattle.join.specs.Beside.{beside_at, all_beside};

use arrayvec::ArrayVec;
use counts::{count, position};
use tops::Full;

// A position of n states, and from there on another.
pub fn beside(a: u64, n: usize, b: u64) -> u64
    ensures { counts_in result ≡ beside_at n (counts_in a) (counts_in b) }
{
    position::of_bytes(|q| {
        count::to_byte(if q < n {
            position::at(a, q)
        } else {
            position::at(b, q - n)
        })
    })
}

// Each position of the first list, of n states, beside each of the second: ascending, as the lists are.
pub fn pairs<const N: usize>(
    a: &[u64],
    b: &[u64],
    n: usize,
    out: &mut ArrayVec<u64, N>,
    room: usize,
) -> Result<(), Full>
    requires { (length a.now ≤ 256) × (length b.now ≤ 256) × (room ≤ N) }
    ensures { Holds room (all_beside n (positions a.now) (positions b.now)) out.new.items result }
{
    if room < a.len() * b.len() {
        return Err(Full);
    }
    out.clear();
    for x in a {
        for y in b {
            out.push(beside(*x, n, *y));
        }
    }
    Ok(())
}
