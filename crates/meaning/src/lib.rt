// The types that every call answers with, the documents' number for each of their cases, how two positions
// compare, and what tables and rows are both asked: their size.
#![tactic(auto)]

ghost use Rattle.std.specs.Prelude.{◌≡◌, true};
ghost use Rattle.meaning.specs.Checks.{check, wrong_size};
ghost use Rattle.meaning.specs.Compared.{at_most};
ghost use Rattle.meaning.specs.Answers.{number_of, code_of, start_of, refused, fault_of};

// "Every answer carries a code, a place, which .., rounds, number of winners, start. The verdict
// holds the controller's start, unrealizable, or the refusal's own case"
#[derive(Clone, Copy, Debug, PartialEq, Eq)]
pub struct Answer {
    pub verdict: Verdict,
    pub place: usize,
    pub which: usize,
    pub rounds: usize,
    pub winners: usize,
}

#[derive(Clone, Copy, Debug, PartialEq, Eq)]
pub enum Verdict {
    Realizable(usize),
    Unrealizable,
    Refused(Refusal),
}

// The numbered reasons, from 2 on, in the order of their numbers.
#[derive(Clone, Copy, Debug, PartialEq, Eq)]
pub enum Refusal {
    Bound = 2,
    Room,
    Length,
    Record,
    Order,
    States,
    Start,
    Edge,
    Gap,
    Full,
    Nothing,
    Letters,
    Size,
    Rows,
}

// How one position stands to another, of the same side.
#[derive(Clone, Copy, Debug, PartialEq, Eq)]
pub enum Comparison {
    Same,
    Below,
    Above,
    Neither,
}

// A check that fails: its refusal, its place, and which: 1 or 2 for a fault of that table or for FULL while it is solved alone.
#[derive(Clone, Copy, Debug, PartialEq, Eq)]
pub struct Fault {
    pub refusal: Refusal,
    pub place: usize,
    pub which: usize,
}

impl Refusal {
    // The number in the documents' table.
    pub fn number(self) -> usize
        ensures { result ≡ number_of self }
    {
        self as usize
    }

    // The fault of a check of this refusal: its place, and which 0.
    pub fn at(self, place: usize) -> Fault
        ensures { result ≡ fault_of (check self place 0 true) }
    {
        Fault {
            refusal: self,
            place,
            which: 0,
        }
    }
}

impl Fault {
    // The same fault, told of table 1 or 2.
    pub fn of_table(self, which: usize) -> Fault
        ensures { result ≡ fault_of (check self.refusal self.place which true) }
    {
        Fault { which, ..self }
    }
}

impl Verdict {
    // The code of an answer.
    pub fn code(self) -> usize
        ensures { result ≡ code_of self }
    {
        match self {
            Verdict::Realizable(_) => 0,
            Verdict::Unrealizable => 1,
            Verdict::Refused(refusal) => refusal.number(),
        }
    }

    // The start of an answer: 0 unless the table is realizable.
    pub fn start(self) -> usize
        ensures { result ≡ start_of self }
    {
        match self {
            Verdict::Realizable(at) => at,
            Verdict::Unrealizable | Verdict::Refused(_) => 0,
        }
    }
}

impl Comparison {
    // Whether each count of the one is at most the other's.
    pub fn at_most(self) -> bool
        ensures { result ≡ at_most self }
    {
        matches!(self, Comparison::Same | Comparison::Below)
    }
}

// A refusal's answer: rounds, winners and start are 0.
impl From<Fault> for Answer {
    ghost from_gives = { λ fault answer. answer ≡ refused (check fault.refusal fault.place fault.which true) };

    #[tactic(auto, unfolding(crate::specs::Answers::refused))]
    fn from(fault: Fault) -> Answer {
        Answer {
            verdict: Verdict::Refused(fault.refusal),
            place: fault.place,
            which: fault.which,
            rounds: 0,
            winners: 0,
        }
    }
}

// A length of 0 bytes, not a multiple of 4, or over the most that there may be.
pub fn wrong_size(bytes: &[u8], most: usize) -> bool
    ensures { result ≡ wrong_size most bytes.now }
{
    if bytes.len() == 0 {
        return true;
    }
    bytes.len() % 4 != 0 || most < bytes.len()
}
