// The file's bytes, in parts of any size.
ghost use Rattle.std.specs.Prelude.{◌≤◌, ◌<◌, ◌≢◌, MatchOption, length, drop};
ghost use Rattle.lines.specs.Fields.{longest};
ghost use Rattle.file_lines.specs.declared.FileStage.TheVariants as stage;
ghost use Rattle.file_lines.specs.State.{Kept, Valid};
ghost use Rattle.file_lines.specs.Lists.{lent_lists, SameLists};
ghost use Rattle.month_file.specs.Machine.{Stepped, Fed};

use crate::collecting::collect;
use file_lines::lent::LentFile;
use file_lines::taking::take_line;
use file_lines::{FileStage, MonthFile};
use records::tables::PlantTable;
use refusals::Refusal;

// The bytes up to the end of a line, or of the part. Answers where the part goes on, behind the line's byte 10; with none, no line of it is left.
// A byte for which the line has no room gives 26; after a refusal none matters. (The whole part and a place in it, since `Stepped` speaks of both.)
fn next_line(file: &mut MonthFile, part: &[u8], from: usize, line: &mut [u8]) -> Option<usize>
    requires { (from ≤ length part.now) × (longest ≤ length line.old) × (file.old.length ≤ longest) × (file.old.stage ≢ stage.Refused → file.old.count < 10000) }
    ensures { (k : Kept) → Valid file.old k → MatchOption result (Fed file.old k line.old (drop from part.now) file.new k line.new) (λ to. Stepped file.old k line.old part.now from file.new line.new to) }
{
    if file.stage == FileStage::Refused {
        return None;
    }
    let end = collect(part, from, line, file.length);
    file.length += end - from;
    if end == part.len() {
        return None;
    }
    if part[end] != b'\n' {
        *file = file.refused(Refusal::LineLength);
        return None;
    }
    Some(end + 1)
}

// One part of the file: line by line, to the part's end. A turn takes a line, so no iterator over the bytes goes in its place.
// The line is no list of the file: it is lent to be read while the file is lent to be written.
pub fn feed<T: PlantTable>(file: &mut LentFile<'_, '_, '_, '_, T>, part: &[u8], line: &mut [u8])
    requires { longest ≤ length line.old }
    ensures fed { Fed file.old.state (lent_lists T.rows file.old) line.old part.now file.new.state (lent_lists T.rows file.new) line.new }
    ensures same { SameLists file.old file.new }
{
    let mut at: usize = 0;
    while let Some(next) = next_line(&mut file.state, part, at, line) {
        let length = file.state.length;
        take_line(file, &line[..length]);
        at = next;
    }
}
