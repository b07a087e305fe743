// Feed and finish with a plant table of records in a list; one of fewer than 512 rows is answered 30.
ghost use Rattle.refusals.specs.Numbers.{number};
ghost use Rattle.file_lines.specs.State.{kept};
ghost use Rattle.month_file.specs.Run.{place};
ghost use Rattle.file_calls.specs.Checking.{FedAny, finish_answer, FinishedAny};

use crate::{feed_any, finish_any};
use file_lines::MonthFile;
use file_lines::lent::FileView;
use plants::Plant;
use records::slices::LentPlants;
use refusals::Refusal;

// The list is the caller's own again afterwards, with what was fed.
pub fn feed_list(
    file: &mut MonthFile,
    part: &[u8],
    line: &mut [u8],
    plants: &mut [Plant],
    profile: &mut [u64],
    allotted: &mut [u64],
    accounts: &mut [i64],
) -> Result<(), Refusal>
    ensures { FedAny (place file.old (kept plants.old profile.old allotted.old accounts.old) line.old) part.now (number result) (place file.new (kept plants.new profile.new allotted.new accounts.new) line.new) }
{
    let mut table = LentPlants { plants };
    feed_any(file, part, line, &mut table, profile, allotted, accounts)
}

// The list is read alone.
pub fn finish_list(
    file: MonthFile,
    line: &[u8],
    plants: &[Plant],
    profile: &[u64],
    allotted: &[u64],
    accounts: &[i64],
    text: &mut [u8],
) -> Result<usize, Refusal>
    ensures { FinishedAny (place file (kept plants.now profile.now allotted.now accounts.now) line.now) text.old (finish_answer result) text.new }
{
    let lists = FileView {
        plants: &plants,
        profile,
        allotted,
        accounts,
    };
    finish_any(file, line, lists, text)
}
