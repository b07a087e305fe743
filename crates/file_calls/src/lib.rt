// Feed and finish for any caller: what they need is decided at run time.
#![tactic(auto)]

ghost use Rattle.std.specs.Prelude.{◌≡◌, ◌≤◌, length, take};
ghost use Rattle.refusals.specs.Numbers.{number};
ghost use Rattle.questions.specs.Questions.{rows_number};
ghost use Rattle.records.specs.Tables.{SameTable};
ghost use Rattle.file_lines.specs.State.{kept, Lent, Gathering, Counted, Settling, Valid};
ghost use Rattle.file_lines.specs.Lists.{viewed_lists};
ghost use Rattle.month_file.specs.Run.{place};
ghost use Rattle.file_calls.specs.Checking.{Decides, FileRoom, FileNumber, FedAny, FinishNumber, finish_answer, FinishedAny};

use file_lines::lent::{FileView, LentFile};
use file_lines::{FileStage, MonthFile};
use ledger::{ACCOUNTS, ALLOTTED};
use lines::fields::LONGEST;
use lists::{PERIODS, PLANTS};
use month::stating::room_for;
use month::{Month, Stage};
use month_file::feeding::feed;
use month_file::finishing::finish;
use plants::Plant;
use questions::{ask_row, periods_in_limits};
use records::tables::{PlantRows, PlantTable};
use refusals::{Refusal, ask, told};

pub mod listed;

// Are the lists of what was read long enough for every month?
fn are_lent<T: PlantRows>(lists: FileView<'_, T>) -> bool
    ensures { Decides (Lent (viewed_lists T.rows lists.entry)) result }
{
    PLANTS <= lists.plants.count()
        && PERIODS <= lists.profile.len()
        && ALLOTTED * PLANTS <= lists.allotted.len()
        && ACCOUNTS * PLANTS <= lists.accounts.len()
}

// ... and the list of the line that has begun? State, line and lists are no struct: C lends them apart, and `finish` reads the lists with the state after
// the line.
fn is_room<T: PlantRows>(file: MonthFile, line: &[u8], lists: FileView<'_, T>) -> bool
    ensures { Decides (FileRoom (place file (viewed_lists T.rows lists.entry) line.now)) result }
{
    LONGEST <= line.len() && are_lent(lists)
}

// Among P and H lines: sizes in limits, and every line counted?
fn is_gathering(file: MonthFile) -> bool
    ensures { Decides (Gathering file) result }
{
    file.plants <= PLANTS as u64
        && file.periods <= PERIODS as u64
        && file.rows as u64 <= file.plants
        && (file.figures as u64) < file.periods
        && file.count == 1 + file.rows as u64 + file.figures as u64
}

// Among G lines: an open month, sizes in limits, and every line counted?
#[tactic(auto, unfolding(month::specs::Questions::is_open, lists::specs::Questions::in_range))]
fn is_counted(month: Month, count: u64) -> bool
    ensures { Decides (Counted month count) result }
{
    month.stage == Stage::Open
        && month.plants <= PLANTS as u64
        && periods_in_limits(month.periods)
        && month.due <= month.periods + 1
        && count == month.plants + month.periods + month.due
}

// 5 to 8 of the first rows of a table, read one by one.
fn ask_table<T: PlantRows>(plants: &T, rows: usize) -> Result<(), Refusal>
    requires { rows ≤ length (T.rows plants.now) }
    ensures { number result ≡ rows_number 0 0 (take rows (T.rows plants.now)) }
{
    let mut before = Plant::default();
    for i in 0..rows {
        let plant = plants.row(i);
        ask_row(before, plant)?;
        before = plant;
    }
    Ok(())
}

// ... 5 to 8 passed by the table, and the ledger in its bounds?
fn is_settling<T: PlantRows>(file: MonthFile, lists: FileView<'_, T>) -> bool
    requires { Lent (viewed_lists T.rows lists) }
    ensures { Decides (Settling file (viewed_lists T.rows lists.entry)) result }
{
    let month = file.month;
    let rows = month.plants as usize;
    is_counted(month, file.count)
        && ask_table(lists.plants, rows).is_ok()
        && lists.ledger_of(rows).in_bounds()
}

// Do state and lists fit together, as after `fresh` and every feed?
fn is_valid<T: PlantRows>(file: MonthFile, lists: FileView<'_, T>) -> bool
    requires { Lent (viewed_lists T.rows lists) }
    ensures { Decides (Valid file (viewed_lists T.rows lists.entry)) result }
{
    if LONGEST < file.length {
        return false;
    }
    match file.stage {
        FileStage::First => file.count == 0,
        FileStage::Gathering => is_gathering(file),
        FileStage::Metering => is_settling(file, lists),
        FileStage::Refused => true,
    }
}

// 30 and 31 of a feed.
fn ask_file<T: PlantRows>(
    file: MonthFile,
    line: &[u8],
    lists: FileView<'_, T>,
) -> Result<(), Refusal>
    ensures { FileNumber (place file (viewed_lists T.rows lists.entry) line.now) (number result) }
{
    ask(is_room(file, line, lists), Refusal::ListLength)?;
    ask(is_valid(file, lists), Refusal::OutOfTurn)
}

// One part of the file, with a state and lists that may hold anything. Refused, the state is left as it was. The lists come apart, as C lends them: they
// are a file's once they are asked.
pub fn feed_any<T: PlantTable>(
    file: &mut MonthFile,
    part: &[u8],
    line: &mut [u8],
    plants: &mut T,
    profile: &mut [u64],
    allotted: &mut [u64],
    accounts: &mut [i64],
) -> Result<(), Refusal>
    ensures fed { FedAny (place file.old (kept (T.rows plants.old) profile.old allotted.old accounts.old) line.old) part.now (number result) (place file.new (kept (T.rows plants.new) profile.new allotted.new accounts.new) line.new) }
    ensures same { SameTable T.rows T.lender plants.old plants.new }
{
    let lists = FileView {
        plants,
        profile,
        allotted,
        accounts,
    };
    ask_file(*file, line, lists)?;
    let mut lent = LentFile {
        state: *file,
        plants,
        profile,
        allotted,
        accounts,
    };
    feed(&mut lent, part, line);
    *file = lent.state;
    Ok(())
}

// 30, 22 and 31 of a finish.
fn ask_finish<T: PlantRows>(
    file: MonthFile,
    line: &[u8],
    lists: FileView<'_, T>,
    text: &[u8],
) -> Result<(), Refusal>
    ensures { FinishNumber (place file (viewed_lists T.rows lists.entry) line.now) text.now (number result) }
{
    ask(is_room(file, line, lists), Refusal::ListLength)?;
    ask(
        room_for(PLANTS as u64) <= text.len() as u64,
        Refusal::TextRoom,
    )?;
    ask(is_valid(file, lists), Refusal::OutOfTurn)
}

// What a finish answers, as C reads it: the number, and how many bytes were written.
#[repr(C)]
#[derive(Clone, Copy)]
pub struct FinishAnswer {
    pub number: u64,
    pub length: u64,
}

impl From<Result<usize, Refusal>> for FinishAnswer {
    ghost from_gives = { λ answer c. c ≡ finish_answer answer };

    #[tactic(auto, unfolding(refusals::specs::Numbers::told))]
    fn from(answer: Result<usize, Refusal>) -> FinishAnswer {
        let (number, length) = told(answer, 0);
        FinishAnswer {
            number,
            length: length as u64,
        }
    }
}

// The input has ended, with a state and lists that may hold anything. Answers how many bytes were written.
pub fn finish_any<T: PlantRows>(
    file: MonthFile,
    line: &[u8],
    lists: FileView<'_, T>,
    text: &mut [u8],
) -> Result<usize, Refusal>
    ensures { FinishedAny (place file (viewed_lists T.rows lists.entry) line.now) text.old (finish_answer result) text.new }
{
    ask_finish(file, line, lists, text)?;
    Ok(finish(file, line, lists, text))
}
