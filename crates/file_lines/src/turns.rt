// 31: whether a line is in turn.
ghost use Rattle.std.specs.Prelude.{◌≡◌, ◌≤◌};
ghost use Rattle.lines.specs.Reading.{start_number};
ghost use Rattle.file_lines.specs.declared.FileStage.TheVariants as stage;
ghost use Rattle.file_lines.specs.File.{gather_turn, meter_turn};
ghost use Rattle.file_lines.specs.State.{turn};

use crate::{FileStage, MonthFile};
use lines::reading::Start;
use month::Month;

// 31, of G lines: is it the period due, and is one due? Start and figure stay two: the figure stands in a list beside `ReadLine`.
fn meter_turn(month: Month, start: Start, period: u64) -> bool
    ensures { result ≡ meter_turn month (start_number start) period }
{
    start == Start::Meter && month.due <= month.periods && period == month.due
}

// 31, of P and H lines: is it a P line where rows are missing, and else the next H line?
fn gather_turn(file: MonthFile, start: Start, period: u64) -> bool
    requires { file.figures ≤ 744 }
    ensures { result ≡ gather_turn file.plants file.rows file.figures (start_number start) period }
{
    if (file.rows as u64) < file.plants {
        return start == Start::Plant;
    }
    start == Start::Period && period == file.figures as u64 + 1
}

// 31: is a line with this start and first figure in turn?
#[tactic(auto, unfolding(crate::specs::State::turn, crate::specs::State::turn_at))]
pub fn in_turn(file: MonthFile, start: Start, period: u64) -> bool
    requires { file.stage ≡ stage.Gathering → file.figures ≤ 744 }
    ensures { result ≡ turn file (start_number start) period }
{
    match file.stage {
        FileStage::First => start == Start::Month,
        FileStage::Gathering => gather_turn(file, start, period),
        FileStage::Metering => meter_turn(file.month, start, period),
        FileStage::Refused => false,
    }
}
