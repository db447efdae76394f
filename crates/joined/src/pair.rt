// The checks of two tables: 4 to 10 of the first, 4 to 10 of the second, 13 and 14.
ghost use Rattle.std.specs.Prelude.{◌≡◌};
ghost use Rattle.joined.specs.Joined.{with_tables, pair_of};

use meaning::{Fault, Refusal};
use table::{Table, checks};

// Two tables that pass, as they were read.
#[derive(Clone, Copy)]
pub struct Tables {
    pub first: Table,
    pub second: Table,
}

// The first check that fails, in their order: its which is 1 or 2 for a fault of that table, and 0
// for 13 and 14. Beside it the tables, as they were read: each is there if it passes 4 to 10.
#[derive(Clone, Copy)]
pub struct Unpaired {
    pub fault: Fault,
    pub first: Option<Table>,
    pub second: Option<Table>,
}

// The fault alone.
impl From<Unpaired> for Fault {
    ghost from_gives = { λ unpaired fault. fault ≡ unpaired.fault };

    fn from(unpaired: Unpaired) -> Fault {
        unpaired.fault
    }
}

// The two tables, or the first check that fails. Each is checked and read once, the second after a
// fault of the first too.
pub fn pair(first: &[u8], second: &[u8]) -> Result<Tables, Unpaired>
    ensures { result ≡ pair_of first.now second.now }
{
    let one = checks::check(first);
    let two = checks::check(second);
    let first = one.map_err(|fault| with_tables(fault.of_table(1), one, two))?;
    let second = two.map_err(|fault| with_tables(fault.of_table(2), one, two))?;
    if first.outputs != second.outputs || first.inputs != second.inputs {
        return Err(with_tables(Refusal::Letters.at(0), one, two));
    }
    if 8 < first.controllers + second.controllers || 8 < first.worlds + second.worlds {
        return Err(with_tables(Refusal::Size.at(0), one, two));
    }
    Ok(Tables { first, second })
}

// A fault, beside what was read of each table.
fn with_tables(fault: Fault, one: Result<Table, Fault>, two: Result<Table, Fault>) -> Unpaired
    ensures { result ≡ with_tables fault one two }
{
    Unpaired {
        fault,
        first: one.ok(),
        second: two.ok(),
    }
}
