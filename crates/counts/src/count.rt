// One count: a small signed integer, -1 where no run is. Any negative number is taken for -1, and none but -1 is given for it.
ghost use Rattle.std.specs.Prelude.{◌≡◌, ◌≤◌, min};
ghost use Rattle.meaning.specs.Counting.{one_higher};
ghost use Rattle.meaning.specs.Signed.{plus_signed, less_signed, one_lower};

// A count after a state of that mark is entered: -1 stays -1, and an overrun stops at K + 1.
#[tactic(auto, unfolding(meaning::specs::Signed::plus_signed, meaning::specs::Signed::min_z))]
pub fn plus(c: i8, mark: u8, k: usize) -> i8
    requires { k ≤ 7 }
    ensures { result ≡ plus_signed k mark c }
{
    if c < 0 {
        return -1;
    }
    (c as usize + mark as usize).min(k + 1) as i8
}

// A count less a mark, floored at -1.
pub fn less(c: i8, mark: u8) -> i8
    ensures { result ≡ less_signed c mark }
{
    let left = c as i16 - mark as i16;
    if left < 0 { -1 } else { left as i8 }
}

// The winners' byte of a count: one higher.
pub fn to_byte(c: i8) -> u8
    ensures { result ≡ one_higher c }
{
    if c < 0 { 0 } else { c as u8 + 1 }
}

// The count of a winners' byte: one lower. No count needs a byte over 128.
#[tactic(auto, unfolding(meaning::specs::Signed::one_lower))]
pub fn from_byte(b: u8) -> i8
    ensures { result ≡ one_lower (min b 128) }
{
    (b.min(128) as i16 - 1) as i8
}
