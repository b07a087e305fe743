// Questions 2 to 11, and 19 of a ledger at hand, which several calls put (document 01, 'The questions'). `ask_..` answers the first no of its
// definition's list.
#![tactic(auto)]

ghost use Rattle.std.specs.Prelude.{◌≡◌};
ghost use Rattle.refusals.specs.Numbers.{number};
ghost use Rattle.ledger.specs.Ledger.{viewed};
ghost use Rattle.questions.specs.Questions.{plants_in_limits, periods_in_limits, sizes_number, placed, numbered, row_number, rows_number, lengths_number, ledger_number, tables_number};

use ledger::LedgerView;
use lists::{MOST, PERIODS, PLANTS, in_range};
use plants::Plant;
use refusals::{Refusal, ask};

// 2: P in limits?
pub fn plants_in_limits(plants: u64) -> bool
    ensures { result ≡ plants_in_limits plants }
{
    in_range(1, PLANTS as u64, plants)
}

// 3: H in limits? Beside `plants_in_limits`: one call each, and the paper's two questions.
pub fn periods_in_limits(periods: u64) -> bool
    ensures { result ≡ periods_in_limits periods }
{
    in_range(1, PERIODS as u64, periods)
}

// 2, 3 and 4: P, H and TEO in limits.
#[tactic(auto, unfolding(crate::specs::Questions::sizes_number, lists::specs::Questions::first_no))]
pub fn ask_sizes(plants: u64, periods: u64, tariff: u64) -> Result<(), Refusal>
    ensures { number result ≡ sizes_number plants periods tariff }
{
    ask(plants_in_limits(plants), Refusal::PlantCount)?;
    ask(periods_in_limits(periods), Refusal::PeriodCount)?;
    ask(tariff <= 10000, Refusal::Tariff)
}

// 5: submarket 1 to 4, and not below that of the row before. Two rows, and no pair: before the first stands a row of zeros.
#[tactic(auto, unfolding(crate::specs::Questions::placed))]
pub fn is_placed(before: Plant, plant: Plant) -> bool
    ensures { result ≡ placed before.submarket plant.submarket }
{
    in_range(1, 4, plant.submarket) && before.submarket <= plant.submarket
}

// 6: number in limits and, in the same submarket, above that of the row before.
#[tactic(auto, unfolding(crate::specs::Questions::numbered))]
pub fn is_numbered(before: Plant, plant: Plant) -> bool
    ensures { result ≡ numbered before.submarket before.number plant.submarket plant.number }
{
    let other = plant.submarket != before.submarket;
    in_range(1, 999999, plant.number) && (other || before.number < plant.number)
}

// 5 to 8 of a row, after the row before.
#[tactic(auto, unfolding(crate::specs::Questions::row_number, lists::specs::Questions::first_no))]
pub fn ask_row(before: Plant, plant: Plant) -> Result<(), Refusal>
    ensures { number result ≡ row_number before.submarket before.number plant }
{
    ask(is_placed(before, plant), Refusal::Submarket)?;
    ask(is_numbered(before, plant), Refusal::PlantNumber)?;
    ask(plant.guarantee <= 1000000000000, Refusal::Guarantee)?;
    ask(
        plant.loss <= 1000000 && plant.availability <= 1000000,
        Refusal::Factor,
    )
}

// 5 to 8, going down the rows. The first comes after one of zeros: submarket 0, which no row has.
#[tactic(auto, using(refusals::proofs::Asking::asking, crate::proofs::Rows::rows))]
pub fn ask_rows(plants: &[Plant]) -> Result<(), Refusal>
    ensures { number result ≡ rows_number 0 0 plants.now }
{
    let mut before = Plant::default();
    for plant in plants {
        ask_row(before, *plant)?;
        before = *plant;
    }
    Ok(())
}

// 11: ledger lists of exactly 4P and 2P. A P of which these pass 64 bits is answered no.
#[tactic(auto, unfolding(crate::specs::Questions::lengths_number, lists::specs::Questions::first_no))]
pub fn ask_lengths(plants: u64, ledger: LedgerView<'_>) -> Result<(), Refusal>
    ensures { number result ≡ lengths_number plants (viewed ledger.entry) }
{
    ask(
        plants.checked_mul(4) == Some(ledger.allotted.len() as u64)
            && plants.checked_mul(2) == Some(ledger.accounts.len() as u64),
        Refusal::LedgerLength,
    )
}

// 11, then 19: every figure of the ledger at hand inside its bound.
#[tactic(auto, using(refusals::proofs::Asking::asking), unfolding(crate::specs::Questions::ledger_number, lists::specs::Questions::first_no))]
pub fn ask_ledger(plants: u64, ledger: LedgerView<'_>) -> Result<(), Refusal>
    ensures { number result ≡ ledger_number plants (viewed ledger.entry) }
{
    ask_lengths(plants, ledger)?;
    ask(ledger.in_bounds(), Refusal::LedgerBound)
}

// 5 to 11 of these rows. P stands beside them, since settle asks by the month's own.
#[tactic(auto, using(refusals::proofs::Asking::asking, crate::proofs::Last::last), unfolding(crate::specs::Questions::tables_number, lists::specs::Questions::first_no))]
pub fn ask_tables(
    plants: u64,
    rows: &[Plant],
    profile: &[u64],
    ledger: LedgerView<'_>,
) -> Result<(), Refusal>
    ensures { number result ≡ tables_number plants rows.now profile.now (viewed ledger.entry) }
{
    ask_rows(rows)?;
    ask(lists::at_most(MOST, profile), Refusal::ProfileFigure)?;
    ask(0 < lists::sum_of(profile), Refusal::ProfileSum)?;
    ask_lengths(plants, ledger)
}
