// The maximal ones of the lesser counts of all pairs of two lists, and of two lists together. A
// candidate that a kept position covers is passed over; any other is climbed to a maximal one and
// kept. So each kept one is maximal, and the room's next one is FULL.
#![tactic(auto)]

ghost use Rattle.std.specs.Prelude.{◌≡◌, true, map, reverse, ◌≤◌, length};
ghost use Rattle.arrayvec.specs.ArrayVec.{array_vec_len};
ghost use Rattle.meaning.specs.declared.Refusal.TheVariants as R;
ghost use Rattle.meaning.specs.Lists.{keep};
ghost use Rattle.meaning.specs.Counting.{below, covered};
ghost use Rattle.meaning.specs.Checks.{check};
ghost use Rattle.meaning.specs.Answers.{fault_of};
ghost use Rattle.counts.specs.Halves.{lesser_counts};
ghost use Rattle.counts.specs.Words.{counts_in};
ghost use Rattle.lists.specs.Members.{positions};
ghost use Rattle.tops.specs.Tops.{meets, thinned};
ghost use Rattle.tops.specs.Held.{Holds};
ghost use Rattle.tops.specs.Candidates.{climbed, collected, uncovered, rows_of, paired, united};

use arrayvec::ArrayVec;
use counts::word;
use lists::{List, words};
use meaning::{Fault, Refusal};

// A list came to more members than the room.
#[derive(Clone, Copy, Debug, PartialEq, Eq)]
pub struct Full;

impl From<Full> for Fault {
    ghost from_gives = { λ _ fault. fault ≡ fault_of (check R.Full 0 0 true) };

    fn from(_full: Full) -> Fault {
        Refusal::Full.at(0)
    }
}

// Those of a list that no other of them is above, the last first.
pub fn thin<const N: usize>(set: &[u64], out: &mut ArrayVec<u64, N>)
    requires { length set.now ≤ N }
    ensures { positions out.new.items ≡ thinned (positions set.now) }
{
    out.clear();
    for m in set.iter().rev() {
        words::keep_top(out, *m);
    }
}

// Those of the lesser counts of x and each of a list that no other of them is above.
fn row(x: u64, ys: &[u64], out: &mut List)
    requires { length ys.now ≤ 256 }
    ensures { positions out.new.items ≡ thinned (reverse (map (lesser_counts (counts_in x)) (positions ys.now))) }
{
    out.clear();
    for y in ys {
        words::keep_top(out, word::lesser(x, *y));
    }
}

// Parts a list by whether another covers its members.
fn part<const N: usize, const M: usize>(
    set: &[u64],
    others: &[u64],
    taken: &mut ArrayVec<u64, N>,
    rest: &mut ArrayVec<u64, M>,
)
    requires { (length set.now ≤ N) × (length set.now ≤ M) }
    ensures taken { positions taken.new.items ≡ keep (covered (positions others.now)) (positions set.now) }
    ensures rest { positions rest.new.items ≡ keep (uncovered (positions others.now)) (positions set.now) }
{
    taken.clear();
    rest.clear();
    for p in set {
        if words::covers(others, *p) {
            taken.push(*p);
        } else {
            rest.push(*p);
        }
    }
}

// Those of a list that another does not cover.
fn rest<const N: usize>(set: &[u64], others: &[u64], out: &mut ArrayVec<u64, N>)
    requires { length set.now ≤ N }
    ensures { positions out.new.items ≡ keep (uncovered (positions others.now)) (positions set.now) }
{
    out.clear();
    for p in set {
        if !words::covers(others, *p) {
            out.push(*p);
        }
    }
}

// Where a position below x climbs to by one run over the lesser counts of x and each of a list.
fn climb_with(p: u64, x: u64, ys: &[u64]) -> u64
    requires { below (counts_in p) (counts_in x) ≡ true }
    ensures { counts_in result ≡ climbed (map (lesser_counts (counts_in x)) (positions ys.now)) (counts_in p) }
{
    let mut top = p;
    for y in ys {
        if word::compare(top, *y).at_most() {
            top = word::lesser(x, *y);
        }
    }
    top
}

// Where a position climbs to by one run over the lesser counts of all pairs.
fn climb_pairs(p: u64, xs: &[u64], ys: &[u64]) -> u64
    ensures { counts_in result ≡ climbed (meets (positions xs.now) (positions ys.now)) (counts_in p) }
{
    let mut top = p;
    for x in xs {
        if word::compare(top, *x).at_most() {
            top = climb_with(top, *x, ys);
        }
    }
    top
}

// Goes over the candidates, and adds to the positions kept so far what they climb to by the pairs of two lists.
fn keep_row<const N: usize>(
    row: &[u64],
    xs: &[u64],
    ys: &[u64],
    out: &mut ArrayVec<u64, N>,
    room: usize,
) -> Result<(), Full>
    requires { (array_vec_len out.old ≤ room) × (room ≤ N) }
    ensures { Holds room (collected (meets (positions xs.now) (positions ys.now)) (positions out.old.items)
        (positions row.now)) out.new.items result }
{
    'candidates: for p in row {
        // the scan for a dominating member
        for kept in out.iter().rev() {
            if word::compare(*p, *kept).at_most() {
                continue 'candidates;
            }
        }
        if out.len() == room {
            return Err(Full);
        }
        out.push(climb_pairs(*p, xs, ys));
    }
    Ok(())
}

// Goes over the rows of the pairs of two lists, each with the rows after it to climb.
fn keep_rows<const N: usize>(
    xs: &[u64],
    ys: &[u64],
    out: &mut ArrayVec<u64, N>,
    room: usize,
) -> Result<(), Full>
    requires { (length ys.now ≤ 256) × (array_vec_len out.old ≤ room) × (room ≤ N) }
    ensures { Holds room (rows_of (positions xs.now) (positions ys.now) (positions out.old.items)) out.new.items result }
{
    // most cuts leave nothing to pair: no row is made then
    if xs.is_empty() {
        return Ok(());
    }
    let mut tops = List::new();
    for (i, x) in xs.iter().enumerate() {
        row(*x, ys, &mut tops);
        keep_row(&tops, &xs[i + 1..], ys, out, room)?;
    }
    Ok(())
}

// The maximal ones of the lesser counts of all pairs. A position that the other list covers is a
// pair itself, and its other pairs are below it: what is left to pair are the rest.
pub fn pairs<const N: usize>(
    set: &[u64],
    backs: &[u64],
    out: &mut ArrayVec<u64, N>,
    room: usize,
) -> Result<(), Full>
    requires { (length set.now ≤ 256) × (length backs.now ≤ 256) × (room ≤ N) × (256 ≤ N) }
    ensures { Holds room (paired (positions set.now) (positions backs.now)) out.new.items result }
{
    let mut xs = List::new();
    part(set, backs, out, &mut xs);
    if room < out.len() {
        return Err(Full);
    }
    let mut fits = List::new();
    let mut ys = List::new();
    part(backs, set, &mut fits, &mut ys);
    keep_row(&fits, &[], &[], out, room)?;
    keep_rows(&xs, &ys, out, room)
}

// The maximal ones of two lists together.
pub fn together<const N: usize>(
    set: &[u64],
    backs: &[u64],
    out: &mut ArrayVec<u64, N>,
    room: usize,
) -> Result<(), Full>
    requires { (length set.now ≤ 256) × (room ≤ N) × (256 ≤ N) }
    ensures { Holds room (united (positions set.now) (positions backs.now)) out.new.items result }
{
    rest(set, backs, out);
    let left = out.len();
    if room < left {
        return Err(Full);
    }
    keep_row(backs, &[], &[], out, room)
}
