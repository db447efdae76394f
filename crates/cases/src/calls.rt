// Calls of the solver: document 01's own, those on three hard tables, and one of each kind.
ghost use Rattle.std.specs.Prelude.{◌≡◌, ◌==◌, cond, IfOk};
ghost use Rattle.std.specs.Io.{ReadsAtMost};
ghost use Rattle.meaning.specs.Answers.{code_of, join as join_of};

use crate::print;
use crate::tables::{FIRST, OWED, SILENT};
use lines::files;
use meaning::Verdict;
use std::io;
use std::rt::Files;
use table::record::INPUT;

// C1 to C12 of document 01, with its K and N; C6 as R-2 of document 02 amends it, and FIRST at K 1.
pub fn document(rt: &impl Print) -> io::Result<()> {
    small(rt, "C1", &OWED, 0, 1)?;
    small(rt, "C2", &SILENT, 0, 1)?;
    let mut both = [9u8; 4160];
    let n = joined(rt, "OWED joined SILENT", &OWED, &SILENT, &mut both)?;
    print::records(rt, &both[..n])?;
    small(rt, "C3", &both[..n], 0, 2)?;
    small(rt, "C4", &both[..n], 0, 1)?;
    parts(rt, "C5", &OWED, &SILENT, 0, 2)?;
    small(rt, "C6", &FIRST, 0, 1)?;
    small(rt, "FIRST at K 1", &FIRST, 1, 1)?;
    small(rt, "C7", &OWED, 8, 1)?;
    small(rt, "C8", &OWED, 7, 0)?;
    small(rt, "C9", &OWED[..0], 0, 1)?;
    let mut exchanged = OWED;
    exchanged[46] = 1;
    exchanged[50] = 0;
    small(rt, "C10", &exchanged, 0, 2)?;
    small(rt, "C11", &OWED[..48], 0, 2)?;
    parts(rt, "C12", &OWED, &FIRST, 0, 2)
}

// Three hard tables at K 7, at the rooms where their answers change.
pub fn hard(rt: &(impl Print + Eprint + Files)) -> io::Result<()> {
    large(rt, "work at N 256", b"work.tab", 256)?;
    large(rt, "unreal at N 256", b"unreal.tab", 256)?;
    large(rt, "unreal at N 255", b"unreal.tab", 255)?;
    large(rt, "shrink at N 256", b"shrink.tab", 256)?;
    large(rt, "shrink at N 247", b"shrink.tab", 247)?;
    large(rt, "shrink at N 246", b"shrink.tab", 246)
}

// A call with buffers of 9s for two positions.
pub fn small(rt: &impl Print, name: &str, table: &[u8], k: usize, room: usize) -> io::Result<()> {
    let mut winners = [9u8; 16];
    let mut controller = [9u8; 64];
    let answer = game::solve(table, k, room, &mut winners, &mut controller);
    let inputs = table::read::letters(table, INPUT);
    print::call(rt, name, answer, inputs, &winners, &controller)
}

// Two tables by parts, with buffers of 9s for four positions.
pub fn parts(
    rt: &impl Print,
    name: &str,
    first: &[u8],
    second: &[u8],
    k: usize,
    room: usize,
) -> io::Result<()> {
    let mut winners = [9u8; 32];
    let mut controller = [9u8; 128];
    let answer = join::parts(first, second, k, room, &mut winners, &mut controller);
    let inputs = table::read::letters(first, INPUT);
    print::call(rt, name, answer, inputs, &winners, &controller)
}

// Joins two tables into a lent buffer of 9s, and answers how many bytes that wrote.
pub fn joined(
    rt: &impl Print,
    name: &str,
    first: &[u8],
    second: &[u8],
    out: &mut [u8],
) -> io::Result<usize>
    ensures bytes { out.new ≡ (join_of first.now second.now out.old).out_after }
    ensures number { let answer = (join_of first.now second.now out.old).answer in IfOk result (λ n. n
        ≡ cond (code_of answer.verdict == 0) answer.place 0) }
    ensures within { ReadsAtMost result out.new }
{
    let answer = join::join(first, second, out);
    print::joined(rt, name, answer, out)?;
    match answer.verdict {
        Verdict::Realizable(_) => Ok(answer.place),
        Verdict::Unrealizable | Verdict::Refused(_) => Ok(0),
    }
}

// Reads the table in a file, and answers how many bytes it has; 0 if it can't be read.
pub fn read(rt: &(impl Eprint + Files), file: &[u8], table: &mut [u8]) -> io::Result<usize>
    ensures { ReadsAtMost result table.new }
{
    match files::open(rt, file)? {
        Some(mut opened) => files::read_full(&mut opened, table),
        None => Ok(0),
    }
}

// A call at K 7 on the table in a file, with buffers of 9s for 256 positions.
fn large(
    rt: &(impl Print + Eprint + Files),
    name: &str,
    file: &[u8],
    room: usize,
) -> io::Result<()> {
    let mut table = [0u8; 4161];
    let n = read(rt, file, &mut table)?;
    let mut winners = [9u8; 2048];
    let mut controller = [9u8; 8192];
    let answer = game::solve(&table[..n], 7, room, &mut winners, &mut controller);
    let inputs = table::read::letters(&table[..n], INPUT);
    print::call(rt, name, answer, inputs, &winners, &controller)
}
