// What a call answers: the fourteen refusals, two judgements side by side, and the counts of a table.
ghost use Rattle.std.specs.Prelude.{◌≡◌};
ghost use Rattle.automata.specs.Answer.{forget, beside};
ghost use Rattle.table.specs.Answers.{refusal_number, judged_as};

// The refusals of document 01's list, in its order, numbers 1 to 13, and 14 of document 02 (request 2.3).
#[derive(Clone, Copy, PartialEq, Eq, PartialOrd, Ord)]
pub enum Refusal {
    Short = 1,
    Form = 2,
    Size = 3,
    State = 4,
    Tape = 5,
    Pairs = 6,
    Limit = 7,
    StatesFull = 8,
    ArcsFull = 9,
    Delay = 10,
    Weight = 11,
    Width = 12,
    Space = 13,
    Path = 14,
}

// The number of a refusal.
impl From<Refusal> for u8 {
    ghost from_gives = { λ r n. n ≡ refusal_number r };

    fn from(r: Refusal) -> u8 {
        r as u8
    }
}

// Two parts side by side: the lesser refusal counts.
pub fn both(a: Result<(), Refusal>, b: Result<(), Refusal>) -> Result<(), Refusal>
    ensures { judged_as result ≡ forget (beside (judged_as a) (judged_as b)) }
{
    match (a, b) {
        (Err(m), Err(n)) => Err(m.min(n)),
        (Err(m), Ok(())) => Err(m),
        (Ok(()), b) => b,
    }
}

// How many tapes, states and arcs a table has.
#[derive(Clone, Copy)]
pub struct Counts {
    pub tapes: usize,
    pub states: usize,
    pub arcs: usize,
}
