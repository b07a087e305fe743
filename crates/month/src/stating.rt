// The statement call and the sizing call (document 01, 'The file and its statement').
ghost use Rattle.std.specs.Prelude.{◌≡◌, ◌≤◌, length};
ghost use Rattle.refusals.specs.Numbers.{number};
ghost use Rattle.ledger.specs.Ledger.{viewed};
ghost use Rattle.statement.specs.Statement.{statement_text, room_for};
ghost use Rattle.statement.specs.Writing.{Fills};
ghost use Rattle.statement.specs.Laws.{InLimits};
ghost use Rattle.month.specs.Answers.{stated, sized};
ghost use Rattle.month.specs.Statement.{due_number, sizing_number, statement_number, StatementEnd, statement_call, Sizing};

use crate::{Month, Stage};
use ledger::LedgerView;
use lists::in_range;
use plants::Plant;
use questions::{ask_ledger, ask_rows, periods_in_limits, plants_in_limits};
use refusals::{Refusal, ask};
use statement::writing::write_statement;

// The bytes that 22 asks for, with P in limits.
#[tactic(auto, unfolding(statement::specs::Statement::room_for))]
pub fn room_for(plants: u64) -> u64
    requires { plants ≤ 512 }
    ensures { result ≡ room_for plants }
{
    128 * plants + 128
}

// The statement of these rows, to the front of the text. The answer is its length, and the rest of the text stays.
pub fn write_rows(settled: u64, plants: &[Plant], ledger: LedgerView<'_>, text: &mut [u8]) -> usize
    requires room { room_for (length plants.now) ≤ length text.old }
    requires in_limits { InLimits settled plants.now (viewed ledger) }
    ensures { Fills (statement_text settled plants.now (viewed ledger.entry)) text.old result text.new }
{
    write_statement(settled, plants, ledger, text)
}

impl Month {
    // 21, then 2 and 3 for the month's own P and H, 13 of the rows lent, and 14, where H + 1 passes too.
    #[tactic(auto, unfolding(crate::specs::Statement::due_number, crate::specs::Questions::is_blank, lists::specs::Questions::first_no, lists::specs::Questions::in_range))]
    pub fn ask_due(&self, rows: u64) -> Result<(), Refusal>
        ensures { number result ≡ due_number self.now rows }
    {
        ask(self.stage != Stage::Blank, Refusal::Blank)?;
        ask(plants_in_limits(self.plants), Refusal::PlantCount)?;
        ask(periods_in_limits(self.periods), Refusal::PeriodCount)?;
        ask(rows == self.plants, Refusal::LentTables)?;
        ask(in_range(1, self.periods + 1, self.due), Refusal::PeriodDue)
    }

    // What a sizing call asks: 21 to 14, then 5 to 8, 11, and 19 for the ledger at hand.
    #[tactic(auto, using(refusals::proofs::Asking::asking, questions::proofs::Last::last), unfolding(crate::specs::Statement::sizing_number, lists::specs::Questions::first_no))]
    pub fn ask_sizing(&self, plants: &[Plant], ledger: LedgerView<'_>) -> Result<(), Refusal>
        ensures { number result ≡ sizing_number self.now plants.now (viewed ledger.entry) }
    {
        self.ask_due(plants.len() as u64)?;
        ask_rows(plants)?;
        ask_ledger(self.plants, ledger)
    }

    // What the statement call asks: as a sizing call, then 22 of the bytes lent.
    #[tactic(auto, using(refusals::proofs::Asking::asking), unfolding(crate::specs::Statement::statement_number, lists::specs::Questions::first_no))]
    pub fn ask_statement(
        &self,
        plants: &[Plant],
        ledger: LedgerView<'_>,
        lent: u64,
    ) -> Result<(), Refusal>
        ensures { number result ≡ statement_number self.now plants.now (viewed ledger.entry) lent }
    {
        self.ask_sizing(plants, ledger)?;
        ask(room_for(self.plants) <= lent, Refusal::TextRoom)
    }

    // The statement fills the front of the lent bytes and answers its length; the rest stays.
    #[tactic(auto, using(crate::proofs::Outcomes::calls), unfolding(crate::specs::Statement::statement_call))]
    pub fn statement(
        &self,
        plants: &[Plant],
        ledger: LedgerView<'_>,
        bytes: &mut [u8],
    ) -> Result<usize, Refusal>
        ensures { ◌≡◌ {A = StatementEnd} (record { answer = stated result self.now; bytes = bytes.new }) (statement_call self.now plants.now (viewed ledger.entry) bytes.old) }
    {
        self.ask_statement(plants, ledger, bytes.len() as u64)?;
        Ok(write_rows(self.due - 1, plants, ledger, bytes))
    }

    // A size that the statement does not pass, at most 128P + 128.
    pub fn statement_size(&self, plants: &[Plant], ledger: LedgerView<'_>) -> Result<u64, Refusal>
        ensures { Sizing self.now plants.now (viewed ledger.entry) (sized result self.now) }
    {
        self.ask_sizing(plants, ledger)?;
        Ok(room_for(self.plants))
    }
}
