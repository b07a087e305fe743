// Balance (document 01, 'Calls').
ghost use Rattle.std.specs.Prelude.{◌≡◌};
ghost use Rattle.refusals.specs.Numbers.{number};
ghost use Rattle.month.specs.Questions.{balance_number};
ghost use Rattle.month.specs.Answers.{balanced};
ghost use Rattle.month.specs.Calls.{balance_call};
ghost use Rattle.ledger.specs.Ledger.{viewed};

use crate::{Balance, Month, Stage};
use ledger::{LedgerView, MONEY, NET};
use questions::{ask_ledger, plants_in_limits};
use refusals::{Refusal, ask};

impl Month {
    // 21, then 2 and 11 by the month's own P, and 19 for the ledger at hand.
    #[tactic(auto, using(refusals::proofs::Asking::asking, questions::proofs::Last::last), unfolding(crate::specs::Questions::balance_number, crate::specs::Questions::is_blank, lists::specs::Questions::first_no, lists::specs::Questions::in_range))]
    pub fn ask_balance(&self, ledger: LedgerView<'_>) -> Result<(), Refusal>
        ensures { number result ≡ balance_number self.now (viewed ledger.entry) }
    {
        ask(self.stage != Stage::Blank, Refusal::Blank)?;
        ask(plants_in_limits(self.plants), Refusal::PlantCount)?;
        ask_ledger(self.plants, ledger)
    }

    // Balance answers the four column sums, the sum of nets and the sum of money.
    #[tactic(auto, using(crate::proofs::Outcomes::calls), unfolding(crate::specs::Calls::balance_call))]
    pub fn balance(&self, ledger: LedgerView<'_>) -> Result<Balance, Refusal>
        ensures { balanced result self.now ≡ balance_call self.now (viewed ledger.entry) }
    {
        self.ask_balance(ledger)?;
        Ok(Balance {
            columns: ledger::column_sums(ledger.allotted),
            net: ledger::account_sum(NET, ledger.accounts),
            money: ledger::account_sum(MONEY, ledger.accounts),
        })
    }
}
