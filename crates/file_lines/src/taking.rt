// A line is taken: read, in turn, and its figures kept or settled.
ghost use Rattle.std.specs.Prelude.{◌+◌, ◌≢◌};
ghost use Rattle.file_lines.specs.declared.FileStage.TheVariants as stage;
ghost use Rattle.file_lines.specs.File.{whole, taken, read};
ghost use Rattle.file_lines.specs.State.{progress_of, Moved, Figured};
ghost use Rattle.file_lines.specs.Lists.{lent_lists, SameLists};

use crate::FileStage;
use crate::beginning::begun;
use crate::gathering::gather;
use crate::lent::LentFile;
use crate::settling::settle_line;
use crate::turns::in_turn;
use lines::fields::FIELDS;
use lines::reading::read_line;
use records::tables::PlantTable;
use refusals::Refusal;

// The figures of a line in turn: sizes, a row or a profile figure, or the metered figures of the period due.
pub fn take_figures<T: PlantTable>(file: &mut LentFile<'_, '_, '_, '_, T>, figures: &[u64])
    requires { Figured file.old.state figures.now }
    ensures moved { Moved file.old.state (taken (file.old.state.count + 1) (progress_of file.old.state (lent_lists T.rows file.old)) figures.now) file.new.state (lent_lists T.rows file.new) }
    ensures same { SameLists file.old file.new }
{
    match file.state.stage {
        FileStage::First => file.state = begun(file.state, figures[0], figures[1], figures[2]),
        FileStage::Gathering => gather(file, figures),
        FileStage::Metering => settle_line(file, &figures[1..]),
        FileStage::Refused => {}
    }
}

// A line with its byte 10: 26 to 30 first, then 31, then the other questions.
pub fn take_line<T: PlantTable>(file: &mut LentFile<'_, '_, '_, '_, T>, line: &[u8])
    requires { file.old.state.stage ≢ stage.Refused }
    ensures moved { Moved file.old.state (read (file.old.state.count + 1) (progress_of file.old.state (lent_lists T.rows file.old)) (whole line.now)) file.new.state (lent_lists T.rows file.new) }
    ensures same { SameLists file.old file.new }
{
    let mut figures = [0u64; FIELDS];
    match read_line(line, &mut figures) {
        Ok(read) if in_turn(file.state, read.start, figures[0]) => {
            take_figures(file, &figures[..read.fields]);
        }
        Ok(_) => file.state = file.state.refused(Refusal::OutOfTurn),
        Err(refusal) => file.state = file.state.refused(refusal),
    }
}
