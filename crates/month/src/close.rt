// Close (document 01, 'Calls').
ghost use Rattle.std.specs.Prelude.{◌≡◌};
ghost use Rattle.refusals.specs.Numbers.{number};
ghost use Rattle.month.specs.Questions.{close_number};
ghost use Rattle.month.specs.Answers.{ended};
ghost use Rattle.month.specs.Calls.{close_call};

use crate::{Month, Stage};
use questions::periods_in_limits;
use refusals::{Refusal, ask};

impl Month {
    // 12, 3 for the month's own H, and 20.
    #[tactic(auto, unfolding(crate::specs::Questions::close_number, crate::specs::Questions::is_open, lists::specs::Questions::first_no, lists::specs::Questions::in_range))]
    pub fn ask_close(&self) -> Result<(), Refusal>
        ensures { number result ≡ close_number self.now }
    {
        ask(self.stage == Stage::Open, Refusal::NotOpen)?;
        ask(periods_in_limits(self.periods), Refusal::PeriodCount)?;
        ask(self.due == self.periods + 1, Refusal::PeriodsLeft)
    }

    // Close ends the month.
    #[tactic(auto, using(crate::proofs::Outcomes::calls), unfolding(crate::specs::Calls::close_call))]
    pub fn close(&mut self) -> Result<(), Refusal>
        ensures { ended result self.new ≡ close_call self.old }
    {
        self.ask_close()?;
        self.stage = Stage::Closed;
        Ok(())
    }
}
