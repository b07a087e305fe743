// One line of the month file (document 01, 'The file and its statement'): read, in turn, and kept or settled. What is kept lies in lent lists.
#![tactic(auto)]

ghost use Rattle.std.specs.Prelude.{◌≡◌, ◌<◌};
ghost use Rattle.refusals.specs.Numbers.{refusal_number, number};
ghost use Rattle.file_lines.specs.State.{at_stage, at_refusal, at_call};

use month::Month;
use refusals::Refusal;

pub mod beginning;
mod gathering;
pub mod lent;
mod opening;
mod settling;
pub mod taking;
mod turns;

// How far the lines have come.
#[derive(Clone, Copy, PartialEq, Eq, Default)]
pub enum FileStage {
    // the first line is due
    #[default]
    First,
    // P and H lines are due
    Gathering,
    // G lines are due
    Metering,
    // a line was refused
    Refused,
}

// How far the file has come. No enum with fields: C gets the flat state back, with the fields of the stages that are over too, so each variant would
// carry all of them.
#[derive(Clone, Copy, Default)]
pub struct MonthFile {
    pub stage: FileStage,
    // bytes of the line that has begun. This and `rows`, `figures` say how much of the lent lists is in use: the lists are the caller's between calls
    pub length: usize,
    // lines read
    pub count: u64,
    // what the first line names
    pub plants: u64,
    pub periods: u64,
    pub tariff: u64,
    // P and H lines taken
    pub rows: usize,
    pub figures: usize,
    // once the last H line is taken
    pub month: Month,
    // of the refusal; no kind of refusal, since C may lend a state with any number
    pub number: u64,
}

impl MonthFile {
    // One more line read, at a stage. That the count is small is no fact of the type: C may lend a state with any count.
    #[tactic(auto, unfolding(crate::specs::State::at_stage))]
    pub fn at_stage(self, stage: FileStage) -> MonthFile
        requires { self.count < 10000 }
        ensures { result ≡ at_stage self stage }
    {
        MonthFile {
            stage,
            length: 0,
            count: self.count + 1,
            ..self
        }
    }

    // The line just read is refused.
    #[tactic(auto, unfolding(crate::specs::State::at_refusal, crate::specs::State::at_stage))]
    pub fn refused(self, refusal: Refusal) -> MonthFile
        requires { self.count < 10000 }
        ensures { result ≡ at_refusal self (refusal_number refusal) }
    {
        MonthFile {
            number: refusal.number(),
            ..self.at_stage(FileStage::Refused)
        }
    }

    // Open or settle has answered: the line is refused, or the month goes on among G lines.
    #[tactic(auto, using(crate::proofs::Moves::answered), unfolding(crate::specs::State::at_call, crate::specs::State::at_stage, lists::specs::Questions::outcome))]
    pub fn after<A: Copy>(self, answer: Result<A, Refusal>, month: Month) -> MonthFile
        requires { self.count < 10000 }
        ensures { result ≡ at_call self (number answer) month }
    {
        match answer {
            Ok(_) => MonthFile {
                month,
                ..self.at_stage(FileStage::Metering)
            },
            Err(refusal) => self.refused(refusal),
        }
    }
}
