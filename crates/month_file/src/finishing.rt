// The end of the file: the statement after close, or the refusal, is written.
ghost use Rattle.std.specs.Prelude.{◌≡◌, ◌≤◌, ◌<◌, ◌≢◌, length};
ghost use Rattle.lines.specs.Fields.{longest};
ghost use Rattle.statement.specs.Statement.{room_for};
ghost use Rattle.statement.specs.Writing.{Fills};
ghost use Rattle.file_lines.specs.declared.FileStage.TheVariants as stage;
ghost use Rattle.file_lines.specs.File.{refusal, printed};
ghost use Rattle.month_file.specs.Bytes.{finished};
ghost use Rattle.file_lines.specs.State.{Kept, progress_of, Valid, at_refusal};
ghost use Rattle.file_lines.specs.Lists.{viewed_lists};
ghost use Rattle.month_file.specs.Machine.{reading_of, unended_number, AtEnd, Finishable};

use figures::writing::write_byte;
use file_lines::lent::FileView;
use file_lines::{FileStage, MonthFile};
use lines::fields::FIELDS;
use lines::reading::read_line;
use lists::PLANTS;
use month::stating::write_rows;
use plants::Plant;
use records::tables::PlantRows;
use refusals::Refusal;
use statement::writing::write_leading;

// `R,line,number` alone.
fn write_refusal(line: u64, number: u64, text: &mut [u8]) -> usize
    requires { 44 ≤ length text.old }
    ensures { Fills (refusal line number) text.old result text.new }
{
    let end = write_leading(b'R', line, number, &[], text, 0);
    write_byte(b'\n', text, end)
}

// A line without its byte 10: 26 to 30 first, then 31.
fn unended(file: MonthFile, line: &[u8]) -> MonthFile
    requires { file.count < 10000 }
    ensures { result ≡ at_refusal file (unended_number line.now) }
{
    let mut figures = [0u64; FIELDS];
    match read_line(line, &mut figures) {
        Ok(_) => file.refused(Refusal::OutOfTurn),
        Err(refusal) => file.refused(refusal),
    }
}

// The state after the last byte. An early end is 31 too, as the line after the last.
fn at_end(file: MonthFile, line: &[u8]) -> MonthFile
    requires { (file.stage ≢ stage.Refused → file.count < 10000) × (file.length ≤ length line.now) }
    ensures { (k : Kept) → Valid file k → AtEnd file k line.now result }
{
    let length = file.length;
    let month = file.month;
    if file.stage == FileStage::Refused {
        return file;
    }
    if length != 0 {
        return unended(file, &line[..length]);
    }
    if file.stage != FileStage::Metering || month.due <= month.periods {
        return file.refused(Refusal::OutOfTurn);
    }
    file
}

// Every period is settled: the month is closed, which is not refused here, and its statement written. The text's room is asked: a type for it would be
// made for one call of `finish` alone.
#[tactic(auto, unfolding(statement::specs::Statement::room_for))]
fn write_month<T: PlantRows>(file: MonthFile, lists: FileView<'_, T>, text: &mut [u8]) -> usize
    requires { Finishable file (viewed_lists T.rows lists) × (room_for 512 ≤ length text.old) }
    ensures { Fills (printed file.count (progress_of file (viewed_lists T.rows lists.entry))) text.old result text.new }
{
    let mut month = file.month;
    if let Err(refusal) = month.close() {
        return write_refusal(file.count, refusal.number(), text);
    }
    let rows = file.month.plants as usize;
    let ledger = lists.ledger_of(rows);
    // no heap: room for the most plants
    let mut room = [Plant::default(); PLANTS];
    let plants = lists.plants.front(rows, &mut room);
    write_rows(month.due - 1, plants, ledger, text)
}

// The input has ended: what is printed stands at the front of the text, and its length is answered. The lists are read, as C lends them for this call,
// so that they fit the state is asked here: to make a file of them they would have to be lent `&mut`.
#[tactic(auto, unfolding(statement::specs::Statement::room_for))]
pub fn finish<T: PlantRows>(
    file: MonthFile,
    line: &[u8],
    lists: FileView<'_, T>,
    text: &mut [u8],
) -> usize
    requires longest_in_bounds { (longest ≤ length line.now) × (room_for 512 ≤ length text.old) }
    requires valid { Valid file (viewed_lists T.rows lists) }
    ensures { Fills (finished (reading_of file (viewed_lists T.rows lists.entry) line.now)) text.old result text.new }
{
    let end = at_end(file, line);
    if end.stage == FileStage::Refused {
        return write_refusal(end.count, end.number, text);
    }
    write_month(end, lists, text)
}
