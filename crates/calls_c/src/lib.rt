// The archive of the calls, for C and Rust: each export is the call of that name in the crate calls, and promises the same.
#![tactic(auto)]

ghost use Rattle.std.specs.Prelude.{◌≡◌};
ghost use Rattle.calls.specs.Called.{called, called_solve, called_parts, joins, called_join, CalledCheck};

// Solves a table for the patience count k, with room for so many positions.
#[unsafe(no_mangle)]
pub extern "C" fn desk_solve(
    table: &[u8],
    k: u32,
    room: u32,
    winners: &mut [u8],
    controller: &mut [u8],
    answer: &mut [u8],
) -> u32
    ensures { called result winners.new controller.new answer.new
        ≡ called_solve table.now k room winners.old controller.old answer.old }
{
    calls::desk_solve(table, k, room, winners, controller, answer)
}

// Joins two tables into one.
#[unsafe(no_mangle)]
pub extern "C" fn desk_join(first: &[u8], second: &[u8], out: &mut [u8], answer: &mut [u8]) -> u32
    ensures { joins result out.new answer.new
        ≡ called_join first.now second.now out.old answer.old }
{
    calls::desk_join(first, second, out, answer)
}

// Solves two tables by parts.
#[unsafe(no_mangle)]
pub extern "C" fn desk_parts(
    first: &[u8],
    second: &[u8],
    k: u32,
    room: u32,
    winners: &mut [u8],
    controller: &mut [u8],
    answer: &mut [u8],
) -> u32
    ensures { called result winners.new controller.new answer.new
        ≡ called_parts first.now second.now k room winners.old controller.old
        answer.old }
{
    calls::desk_parts(first, second, k, room, winners, controller, answer)
}

// Checks rows, whoever made them, against a table for the patience count k.
#[unsafe(no_mangle)]
pub extern "C" fn desk_check(table: &[u8], k: u32, rows: &[u8], answer: &mut [u8]) -> u32
    ensures { CalledCheck table.now k rows.now answer.old result answer.new }
{
    calls::desk_check(table, k, rows, answer)
}
