// What a call is refused with: a kind for each question, with the question's number.
#![tactic(auto)]

ghost use Rattle.std.specs.Prelude.{◌≡◌, cond};
ghost use Rattle.refusals.specs.Numbers.{refusal_number, number, told};

// Each kind stands for the question that was answered no.
#[derive(Clone, Copy, PartialEq, Eq, Debug)]
pub enum Refusal {
    // no month is open
    AlreadyOpen = 1,
    // P is 1 to 512
    PlantCount = 2,
    // H is 1 to 744
    PeriodCount = 3,
    // TEO is 0 to 10,000
    Tariff = 4,
    // a row's submarket is 1 to 4, and not below that of the row before
    Submarket = 5,
    // a row's number is in limits and, in its submarket, above that of the row before
    PlantNumber = 6,
    // a row's guarantee is in limits
    Guarantee = 7,
    // a row's loss and availability are in limits
    Factor = 8,
    // every profile figure is in limits
    ProfileFigure = 9,
    // the profile's sum is above 0
    ProfileSum = 10,
    // the ledger's lists have 4P and 2P figures
    LedgerLength = 11,
    // a month is open
    NotOpen = 12,
    // as many rows and profile figures are lent as the month has
    LentTables = 13,
    // the period due is in limits
    PeriodDue = 14,
    // P metered figures are lent
    MeteredCount = 15,
    // every metered figure is in limits
    MeteredFigure = 16,
    // their sum equals the profile's figure for the period due
    MeteredSum = 17,
    // the allotment list has 4P figures
    AllotmentLength = 18,
    // every ledger figure is inside its bound
    LedgerBound = 19,
    // the last period is settled
    PeriodsLeft = 20,
    // the month is not blank
    Blank = 21,
    // enough bytes are lent for the text
    TextRoom = 22,
    // what is left and the needs are in limits, needs no more in sum, no submarket with both
    Transfer = 23,
    // the lists are equally long, and the sum of the weights and the total are below 2^62
    Weights = 24,
    // the total is 0, or the sum of the weights is above 0
    NoWeight = 25,
    // the line has at most 8,192 bytes
    LineLength = 26,
    // it starts as one of the four kinds of line
    LineStart = 27,
    // it has as many fields as its kind; for a field call: it has such a field
    FieldCount = 28,
    // every field is a figure
    NotFigure = 29,
    // the lists are long enough
    ListLength = 30,
    // the line is in turn; for feed and finish: state and lists fit together
    OutOfTurn = 31,
}

impl Refusal {
    // The fixed number.
    pub fn number(self) -> u64
        ensures { result ≡ refusal_number self }
    {
        self as u64
    }
}

// A question, with the refusal for a no.
pub fn ask(yes: bool, refusal: Refusal) -> Result<(), Refusal>
    ensures { number result ≡ cond yes 0 (refusal_number refusal) }
{
    if yes { Ok(()) } else { Err(refusal) }
}

// The number of an answer: 0 with every question answered yes. (No `From`: neither `u64` nor `Result` is of this crate.)
pub fn number_of(answer: Result<(), Refusal>) -> u64
    ensures { result ≡ number answer }
{
    match answer {
        Ok(()) => 0,
        Err(refusal) => refusal.number(),
    }
}

// The number of a call's answer, and its figures: zeros beside a refusal.
#[tactic(auto, unfolding(crate::specs::Numbers::told))]
pub fn told<A: Copy>(answer: Result<A, Refusal>, zeros: A) -> (u64, A)
    ensures { result ≡ told answer zeros }
{
    match answer {
        Ok(figures) => (0, figures),
        Err(refusal) => (refusal.number(), zeros),
    }
}
