// An answer as bytes: six fields of four bytes, low byte first.
ghost use Rattle.std.specs.Prelude.{◌≡◌, ◌≤◌, length};
ghost use Rattle.meaning.specs.Lists.{written};
ghost use Rattle.meaning.specs.Answers.{code_of};
ghost use Rattle.calls.specs.Called.{answer_bytes, reported};

use meaning::Answer;

// Lays the six fields down: of each the low four bytes.
fn lay(answer: Answer, out: &mut [u8])
    requires { 24 ≤ length out.old }
    ensures { out.new ≡ written (answer_bytes answer) out.old }
{
    let verdict = answer.verdict;
    let fields = [
        verdict.code(),
        answer.place,
        answer.which,
        answer.rounds,
        answer.winners,
        verdict.start(),
    ];
    for (i, field) in fields.iter().enumerate() {
        out[4 * i..4 * i + 4].copy_from_slice(&field.to_le_bytes()[..4]);
    }
}

// Lays the answer down, if there is room for it, and gives its code.
pub fn report(answer: Answer, out: &mut [u8]) -> u32
    ensures code { result ≡ code_of answer.verdict }
    ensures bytes { out.new ≡ reported answer out.old }
{
    let code = answer.verdict.code() as u32;
    if out.len() < 24 {
        return code;
    }
    lay(answer, out);
    code
}
