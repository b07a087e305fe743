// Open (document 01, 'Calls').
ghost use Rattle.std.specs.Prelude.{◌≡◌};
ghost use Rattle.refusals.specs.Numbers.{number};
ghost use Rattle.month.specs.Questions.{open_number};
ghost use Rattle.month.specs.Answers.{ended};
ghost use Rattle.month.specs.Calls.{OpenEnd, open_call};
ghost use Rattle.ledger.specs.Ledger.{viewed};

use crate::{Month, Stage};
use ledger::LedgerView;
use plants::Plant;
use questions::{ask_sizes, ask_tables};
use refusals::{Refusal, ask};

impl Month {
    // 1, then 2 to 4 of what is lent, then 5 to 11. More than 512 rows are refused unread.
    #[tactic(auto, using(refusals::proofs::Asking::asking, questions::proofs::Last::last), unfolding(crate::specs::Questions::open_number, crate::specs::Questions::is_open, lists::specs::Questions::first_no))]
    pub fn ask_open(
        &self,
        plants: &[Plant],
        profile: &[u64],
        tariff: u64,
        ledger: LedgerView<'_>,
    ) -> Result<(), Refusal>
        ensures { number result ≡ open_number self.now plants.now profile.now tariff (viewed ledger.entry) }
    {
        ask(self.stage != Stage::Open, Refusal::AlreadyOpen)?;
        ask_sizes(plants.len() as u64, profile.len() as u64, tariff)?;
        ask_tables(plants.len() as u64, plants, profile, ledger)
    }

    // Open sets the ledger to zeros and period 1 due.
    #[tactic(auto, using(crate::proofs::Outcomes::calls), unfolding(crate::specs::Calls::open_call))]
    pub fn open(
        &mut self,
        plants: &[Plant],
        profile: &[u64],
        tariff: u64,
        allotted: &mut [u64],
        accounts: &mut [i64],
    ) -> Result<(), Refusal>
        ensures { ◌≡◌ {A = OpenEnd} (record { answer = ended result self.new; ledger = record { allotted = allotted.new; accounts = accounts.new } }) (open_call self.old plants.now profile.now tariff (record { allotted = allotted.old; accounts = accounts.old })) }
    {
        self.ask_open(plants, profile, tariff, LedgerView { allotted, accounts })?;
        allotted.fill(0);
        accounts.fill(0);
        *self = Month {
            stage: Stage::Open,
            plants: plants.len() as u64,
            periods: profile.len() as u64,
            tariff,
            due: 1,
        };
        Ok(())
    }
}
