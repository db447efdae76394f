// Eight bits, one for each state: the one test of one bit, and a bit set.
#![tactic(auto)]

ghost use Rattle.std.specs.Prelude.{◌≡◌, ◌||◌, eqb};
ghost use Rattle.meaning.specs.Lists.{some};
ghost use Rattle.meaning.specs.Table.{bit};
ghost use Rattle.masks.specs.Mask.{mask as mask_of};

// Whether a mask has a state.
pub fn has(mask: u8, q: usize) -> bool
    ensures { result ≡ bit mask q }
{
    if 8 <= q {
        return false;
    }
    (mask >> q) & 1 == 1
}

// Whether a mask has one of the first n states.
pub fn has_any(mask: u8, n: usize) -> bool
    ensures { result ≡ some n (bit mask) }
{
    (0..n).any(|q| has(mask, q))
}

// A mask with one state more; past the eighth there is no bit to set.
pub fn with_state(mask: u8, q: usize) -> u8
    ensures { result ≡ mask_of 8 (λ k. bit mask k || eqb k q) }
{
    if 8 <= q {
        return mask;
    }
    mask | (1 << q)
}
