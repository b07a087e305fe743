// The month as a C program keeps it, and its calls. A month with an enum cannot cross: C keeps one whose stage is a number.
#![tactic(auto)]

ghost use Rattle.std.specs.Prelude.{◌≡◌};
ghost use Rattle.refusals.specs.Numbers.{number};
ghost use Rattle.ledger.specs.Ledger.{viewed};
ghost use Rattle.month.specs.Answers.{ended, settled, stated, sized};
ghost use Rattle.kept_month.specs.Months.{month_of, kept_of, handed_back, ended_kept, settled_kept, close_kept, balance_kept, stated_kept, sized_kept};

use hour::Worked;
use ledger::LedgerView;
use month::{Balance, Month, Stage};
use refusals::{Refusal, number_of, told};
use transfer::Table;

// A month as the caller keeps it. Stage: 0 blank, 1 open, 2 closed; any other number is read as blank.
#[repr(C)]
#[derive(Clone, Copy)]
pub struct KeptMonth {
    pub stage: u64,
    pub plants: u64,
    pub periods: u64,
    pub tariff: u64,
    pub due: u64,
}

// The answers, each a struct of its own with the number first: the C interface needs them, since C has neither a Result nor a generic struct.

// What open and close answer: the number, and the month handed back.
#[repr(C)]
#[derive(Clone, Copy)]
pub struct KeptEnd {
    pub number: u64,
    pub month: KeptMonth,
}

// What settle answers: the number, the month handed back, Z, A and both tables.
#[repr(C)]
#[derive(Clone, Copy)]
pub struct KeptSettle {
    pub number: u64,
    pub month: KeptMonth,
    pub secondary: u64,
    pub guarantees: u64,
    pub cover_table: Table,
    pub secondary_table: Table,
}

// What balance answers: the number, the month handed back, the four column sums, the sum of nets and the sum of money.
#[repr(C)]
#[derive(Clone, Copy)]
pub struct KeptBalance {
    pub number: u64,
    pub month: KeptMonth,
    pub columns: [u64; 4],
    pub net: i64,
    pub money: i64,
}

// What statement answers: the number, the month handed back, and the statement's length in bytes.
#[repr(C)]
#[derive(Clone, Copy)]
pub struct KeptStated {
    pub number: u64,
    pub month: KeptMonth,
    pub length: u64,
}

// What statement_size answers: the number, the month handed back, and a size in bytes that the statement does not pass.
#[repr(C)]
#[derive(Clone, Copy)]
pub struct KeptSized {
    pub number: u64,
    pub month: KeptMonth,
    pub size: u64,
}

// The figures beside a refusal of settle. (A constant: with a derived Default of the tables' arrays of arrays the check did not prove `settled_kept`.)
const NO_TABLE: Table = Table { rows: [[0; 4]; 4] };

const NOTHING: Worked = Worked {
    secondary: 0,
    guarantees: 0,
    cover_table: NO_TABLE,
    secondary_table: NO_TABLE,
};

// The month that is meant.
impl From<KeptMonth> for Month {
    ghost from_gives = { λ kept month. month ≡ month_of kept };

    #[tactic(auto, unfolding(crate::specs::Months::month_of, crate::specs::Months::stage_of))]
    fn from(kept: KeptMonth) -> Month {
        Month {
            stage: match kept.stage {
                1 => Stage::Open,
                2 => Stage::Closed,
                _ => Stage::Blank,
            },
            plants: kept.plants,
            periods: kept.periods,
            tariff: kept.tariff,
            due: kept.due,
        }
    }
}

impl From<Month> for KeptMonth {
    ghost from_gives = { λ month kept. kept ≡ kept_of month };

    #[tactic(auto, unfolding(crate::specs::Months::kept_of, crate::specs::Months::stage_number))]
    fn from(month: Month) -> KeptMonth {
        KeptMonth {
            stage: month.stage as u64,
            plants: month.plants,
            periods: month.periods,
            tariff: month.tariff,
            due: month.due,
        }
    }
}

// Accepted, the month after the call; refused, the caller's own.
#[tactic(auto, unfolding(crate::specs::Months::handed_back, lists::specs::Questions::outcome))]
fn handed_back<A: Copy>(answer: Result<A, Refusal>, month: KeptMonth, after: Month) -> KeptMonth
    ensures { result ≡ handed_back (number answer) month after }
{
    match answer {
        Ok(_) => after.into(),
        Err(_) => month,
    }
}

// Open's and close's answer as C gets it. No `From`, here and below: it is made of the month before the call, the answer and, where it changes, the month
// after.
#[tactic(auto, unfolding(crate::specs::Months::ended_kept))]
pub fn ended_kept(month: KeptMonth, after: Month, answer: Result<(), Refusal>) -> KeptEnd
    ensures { result ≡ ended_kept month (ended answer after) }
{
    let number = number_of(answer);
    KeptEnd {
        number,
        month: handed_back(answer, month, after),
    }
}

// Settle's answer as C gets it.
#[tactic(auto, unfolding(crate::specs::Months::settled_kept, refusals::specs::Numbers::told))]
pub fn settled_kept(month: KeptMonth, after: Month, answer: Result<Worked, Refusal>) -> KeptSettle
    ensures { result ≡ settled_kept month (settled answer after) }
{
    let (number, worked) = told(answer, NOTHING);
    KeptSettle {
        number,
        month: handed_back(answer, month, after),
        secondary: worked.secondary,
        guarantees: worked.guarantees,
        cover_table: worked.cover_table,
        secondary_table: worked.secondary_table,
    }
}

// Month::close.
#[tactic(auto, unfolding(crate::specs::Months::close_kept))]
pub fn close_kept(month: KeptMonth) -> KeptEnd
    ensures { result ≡ close_kept month }
{
    let mut after = Month::from(month);
    let answer = after.close();
    ended_kept(month, after, answer)
}

// Month::balance.
#[tactic(auto, unfolding(crate::specs::Months::balance_kept, refusals::specs::Numbers::told))]
pub fn balance_kept(month: KeptMonth, ledger: LedgerView<'_>) -> KeptBalance
    ensures { result ≡ balance_kept month (viewed ledger.entry) }
{
    let (number, balance) = told(Month::from(month).balance(ledger), Balance::default());
    let columns = balance.columns;
    KeptBalance {
        number,
        month,
        columns,
        net: balance.net,
        money: balance.money,
    }
}

// The statement's answer as C gets it.
#[tactic(auto, unfolding(crate::specs::Months::stated_kept, refusals::specs::Numbers::told))]
pub fn stated_kept(month: KeptMonth, answer: Result<usize, Refusal>) -> KeptStated
    ensures { result ≡ stated_kept month (stated answer (month_of month)) }
{
    let (number, length) = told(answer, 0);
    KeptStated {
        number,
        month,
        length: length as u64,
    }
}

// The sizing call's answer as C gets it.
#[tactic(auto, unfolding(crate::specs::Months::sized_kept, refusals::specs::Numbers::told))]
pub fn sized_kept(month: KeptMonth, answer: Result<u64, Refusal>) -> KeptSized
    ensures { result ≡ sized_kept month (sized answer (month_of month)) }
{
    let (number, size) = told(answer, 0);
    KeptSized {
        number,
        month,
        size,
    }
}
