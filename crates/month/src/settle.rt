// Settle (document 01, 'Calls').
ghost use Rattle.std.specs.Prelude.{◌≡◌, true, ◌≤◌, length};
ghost use Rattle.lists.specs.Lists.{sum, most, at_most};
ghost use Rattle.refusals.specs.Numbers.{number};
ghost use Rattle.ledger.specs.Ledger.{in_bounds, added, viewed};
ghost use Rattle.ledger.specs.Posting.{Postable, viewed_hour};
ghost use Rattle.month.specs.Questions.{own_number, metered_number, inputs_number, bounds_number};
ghost use Rattle.month.specs.Answers.{settled};
ghost use Rattle.month.specs.Calls.{SettleEnd, settle_call};

use crate::{Month, Stage};
use hour::Worked;
use ledger::{ALLOTTED, HourView, LedgerView};
use lists::{MOST, PLANTS, in_range};
use plants::Plant;
use questions::{ask_sizes, ask_tables};
use refusals::{Refusal, ask};

// The sum of figures in limits: it stays below that at which `sum_of` stops.
#[tactic(auto, using(crate::proofs::Outcomes::sum_whole))]
fn sum_in_limits(figures: &[u64]) -> u64
    requires { (length figures.now ≤ 744) × (at_most most figures.now ≡ true) }
    ensures { result ≡ sum figures.now }
{
    lists::sum_of(figures)
}

// 19 of the ledger as it is and as it would be with the hour's figures and nets added. Nothing is written.
#[tactic(auto, unfolding(crate::specs::Questions::bounds_number, lists::specs::Questions::first_no))]
pub fn ask_bounds(ledger: LedgerView<'_>, hour: HourView<'_>) -> Result<(), Refusal>
    requires { in_bounds (viewed ledger) ≡ true → Postable (viewed ledger) hour.allotment.now hour.nets.now hour.tariff }
    ensures { number result ≡ bounds_number (viewed ledger.entry) (added (viewed ledger.entry) (viewed_hour hour.entry)) }
{
    ask(
        ledger.in_bounds() && ledger.in_bounds_after(hour),
        Refusal::LedgerBound,
    )
}

impl Month {
    // 12, then 2 to 4 for the month's own P, H and TEO, and 13 of the rows and the profile figures lent.
    #[tactic(auto, using(refusals::proofs::Asking::asking), unfolding(crate::specs::Questions::own_number, crate::specs::Questions::is_open, lists::specs::Questions::first_no))]
    pub fn ask_own(&self, rows: u64, figures: u64) -> Result<(), Refusal>
        ensures { number result ≡ own_number self.now rows figures }
    {
        ask(self.stage == Stage::Open, Refusal::NotOpen)?;
        ask_sizes(self.plants, self.periods, self.tariff)?;
        ask(
            rows == self.plants && figures == self.periods,
            Refusal::LentTables,
        )
    }

    // 14 to 18, with `lent` figures in the allotment list, of a month whose P is in limits and whose profile has H figures.
    #[tactic(auto, unfolding(crate::specs::Questions::metered_number, lists::specs::Questions::first_no, lists::specs::Questions::in_range))]
    pub fn ask_metered(&self, profile: &[u64], metered: &[u64], lent: u64) -> Result<(), Refusal>
        requires { (self.now.plants ≤ 512) × (length profile.now ≡ self.now.periods) }
        ensures { number result ≡ metered_number self.now profile.now metered.now lent }
    {
        ask(in_range(1, self.periods, self.due), Refusal::PeriodDue)?;
        ask(metered.len() as u64 == self.plants, Refusal::MeteredCount)?;
        ask(lists::at_most(MOST, metered), Refusal::MeteredFigure)?;
        let due = profile[self.due as usize - 1];
        ask(sum_in_limits(metered) == due, Refusal::MeteredSum)?;
        ask(lent == 4 * self.plants, Refusal::AllotmentLength)
    }

    // 12, 2 to 4, 13, 5 to 11, 14 to 18: all that settle asks before it works the hour.
    #[tactic(auto, using(refusals::proofs::Asking::asking, questions::proofs::Last::last), unfolding(crate::specs::Questions::inputs_number, lists::specs::Questions::first_no))]
    pub fn ask_inputs(
        &self,
        plants: &[Plant],
        profile: &[u64],
        metered: &[u64],
        lent: u64,
        ledger: LedgerView<'_>,
    ) -> Result<(), Refusal>
        ensures { number result ≡ inputs_number self.now plants.now profile.now metered.now lent (viewed ledger.entry) }
    {
        self.ask_own(plants.len() as u64, profile.len() as u64)?;
        ask_tables(self.plants, plants, profile, ledger)?;
        self.ask_metered(profile, metered, lent)
    }

    // Settle fills the allotment list, adds to the ledger and moves the period on. The hour is worked aside, and written where 19 is answered yes too.
    #[tactic(auto, using(crate::proofs::Outcomes::calls, refusals::proofs::Asking::asking), unfolding(crate::specs::Calls::settle_call, crate::specs::Questions::settle_number, lists::specs::Questions::first_no))]
    pub fn settle(
        &mut self,
        plants: &[Plant],
        profile: &[u64],
        metered: &[u64],
        allotment: &mut [u64],
        allotted: &mut [u64],
        accounts: &mut [i64],
    ) -> Result<Worked, Refusal>
        ensures { ◌≡◌ {A = SettleEnd} (record { answer = settled result self.new; allotment = allotment.new; ledger = record { allotted = allotted.new; accounts = accounts.new } }) (settle_call self.old plants.now profile.now metered.now allotment.old (record { allotted = allotted.old; accounts = accounts.old })) }
    {
        let room = allotment.len();
        let ledger = LedgerView { allotted, accounts };
        self.ask_inputs(plants, profile, metered, room as u64, ledger)?;
        // no heap: arrays for the most plants, of which the hour has the front
        let mut figures = [0u64; ALLOTTED * PLANTS];
        let figures = &mut figures[..room];
        let mut nets = [0i64; PLANTS];
        let nets = &mut nets[..plants.len()];
        let worked = hour::work(plants, profile, self.due, metered, figures, nets);
        let hour = HourView {
            allotment: figures,
            nets,
            tariff: self.tariff,
        };
        ask_bounds(ledger, hour)?;
        lists::copy_into(hour.allotment, allotment);
        ledger::post(allotted, accounts, hour);
        self.due += 1;
        Ok(worked)
    }
}
