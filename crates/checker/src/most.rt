// The largest counts of each controller state's runs, and raising them.
ghost use Rattle.std.specs.Prelude.{◌≡◌, ◌<◌, true, false, MatchOption, length, replicate, slice_index, slice_set};
ghost use Rattle.meaning.specs.Lists.{place};
ghost use Rattle.counts.specs.Words.{counts_in};
ghost use Rattle.checker.specs.Raised.{NoneBefore, RaisedSafely};

use counts::word;

// The largest counts of each state, and whether they have risen since they were last led on.
#[derive(Drop)]
pub struct Counts {
    pub most: [u64; 256],
    pub risen: [bool; 256],
    ghost for_all: { length risen ≡ 256 },
}

impl Counts {
    // One state's counts, flagged.
    pub fn of(s: u8, begins: u64) -> Counts
        ensures counts { result.most ≡ slice_set (replicate 256 0) s begins }
        ensures flagged { result.risen ≡ slice_set (replicate 256 false) s true }
    {
        let mut counts = Counts {
            most: [0; 256],
            risen: [false; 256],
        };
        counts.most[s as usize] = begins;
        counts.risen[s as usize] = true;
        counts
    }

    // The first state that is flagged. None is before state `from`.
    pub fn first_risen(&self, from: usize) -> Option<u8>
        requires { NoneBefore from self.now.risen }
        ensures { MatchOption result (place (λ b. b) self.now.risen ≡ 256) (λ s. place (λ b. b) self.now.risen ≡ s) }
    {
        let risen = &self.risen;
        let s = (from..risen.len()).find(|&s| risen[s])?;
        Some(s as u8)
    }

    // The counts of state s, whose flag is taken down.
    pub fn take(&mut self, s: u8) -> u64
        ensures counts { result ≡ slice_index self.old.most s }
        ensures kept { self.new.most ≡ self.old.most }
        ensures down { self.new.risen ≡ slice_set self.old.risen s false }
    {
        self.risen[s as usize] = false;
        self.most[s as usize]
    }

    // Raises the counts of state s to those of m, as the function below does in any two slices.
    pub fn raise(&mut self, s: u8, m: u64)
        ensures { RaisedSafely s (counts_in m) self.old.most self.old.risen self.new.most self.new.risen }
    {
        raise(&mut self.most, &mut self.risen, s as usize, m);
    }
}

// Raises the counts of state s to those of m where m's are greater, and flags s if one is.
pub fn raise(most: &mut [u64], risen: &mut [bool], s: usize, m: u64)
    requires { (s < length most.old) × (s < length risen.old) }
    ensures { RaisedSafely s (counts_in m) most.old risen.old most.new risen.new }
{
    let held = most[s];
    if word::compare(m, held).at_most() {
        return;
    }
    most[s] = word::greater(held, m);
    risen[s] = true;
}
