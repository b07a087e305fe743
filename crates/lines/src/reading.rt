// The reader of a line: its start, its fields, and their figures.
ghost use Rattle.std.specs.Prelude.{◌≡◌, [], ◌∷◌, ◌≤◌, IfOk, OnOk, map, length};
ghost use Rattle.lists.specs.Lists.{every};
ghost use Rattle.lists.specs.Questions.{◌⁇◌, first_no};
ghost use Rattle.figures.specs.Figures.{value, is_figure};
ghost use Rattle.refusals.specs.Numbers.{number};
ghost use Rattle.lines.specs.Fields.{fields};
ghost use Rattle.lines.specs.Reading.{line_start, start_length, count_fits, ReadEnd, read_call, start_number, found, line_of};
ghost use Rattle.lines.specs.Inner.{read_questions, ReadTo};

use crate::fields::{FIELDS, LONGEST, field_at};
use figures::reading::read_figure;
use lists::copy_into;
use refusals::{Refusal, ask, told};

// How a line starts: `MRE,1,`, `P,`, `H,` or `G,`.
#[derive(Clone, Copy, PartialEq, Eq, Debug)]
pub enum Start {
    Month = 1,
    Plant = 2,
    Period = 3,
    Meter = 4,
}

impl Start {
    // How many bytes the start has.
    #[tactic(auto, unfolding(crate::specs::Reading::start_length))]
    fn length(self) -> usize
        ensures { result ≡ start_length (start_number self) }
    {
        match self {
            Start::Month => 6,
            _ => 2,
        }
    }

    // May a line with this start have so many fields behind it?
    #[tactic(auto, unfolding(crate::specs::Reading::count_fits))]
    fn fits(self, count: usize) -> bool
        ensures { result ≡ count_fits (start_number self) count }
    {
        match self {
            Start::Month => count == 3,
            Start::Plant => count == 5,
            Start::Period => count == 2,
            Start::Meter => lists::in_range(2, FIELDS as u64, count as u64),
        }
    }
}

// A line that was read: its start, and how many figures stand behind it.
#[derive(Clone, Copy)]
pub struct ReadLine {
    pub start: Start,
    pub fields: usize,
}

// What reading answers. C reads it as it stands: no enum and no `Result` can cross, so number and start are numbers.
#[repr(C)]
#[derive(Clone, Copy)]
pub struct Line {
    pub number: u64,
    pub start: u64,
    pub fields: u64,
}

impl From<Result<ReadLine, Refusal>> for Line {
    ghost from_gives = { λ read line. line ≡ line_of read };

    #[tactic(auto, unfolding(refusals::specs::Numbers::told))]
    fn from(read: Result<ReadLine, Refusal>) -> Line {
        let parts = read.map(|read| (read.start as u64, read.fields as u64));
        let (number, (start, fields)) = told(parts, (0, 0));
        Line {
            number,
            start,
            fields,
        }
    }
}

// The start that a line has.
fn line_start(line: &[u8]) -> Option<Start>
    ensures { found result ≡ line_start line.now }
{
    if line.starts_with(b"MRE,1,") {
        return Some(Start::Month);
    }
    if line.starts_with(b"P,") {
        return Some(Start::Plant);
    }
    if line.starts_with(b"H,") {
        return Some(Start::Period);
    }
    if line.starts_with(b"G,") {
        return Some(Start::Meter);
    }
    None
}

// How many fields there are: one more than commas. (A loop, and 16 bits: it adds 0.4 us a G line to the old form, which counted as it read; `filter` and
// `count`, measured, add 3 us more, a twentieth of the full month, and miss the old form's speed.)
fn count_fields(bytes: &[u8]) -> usize
    requires { length bytes.now ≤ 8192 }
    ensures { result ≡ length (fields bytes.now) }
{
    let mut count: u16 = 1;
    for b in bytes {
        count += u16::from(*b == b',');
    }
    usize::from(count)
}

// Reads the fields, their figures to a list with as many places.
fn read_fields(bytes: &[u8], figures: &mut [u64]) -> Result<(), Refusal>
    requires { length figures.old ≡ length (fields bytes.now) }
    ensures number { number result ≡ first_no (every is_figure (fields bytes.now) ⁇ 29 ∷ []) }
    ensures figures { OnOk result (figures.new ≡ map value (fields bytes.now)) }
{
    let mut at = 0;
    for figure in figures.iter_mut() {
        let field = field_at(bytes, at);
        *figure = read_figure(field).ok_or(Refusal::NotFigure)?;
        at += field.len() + 1;
    }
    Ok(())
}

// Reads a line, its figures to the front of a list that has room for any line's: questions 26 to 29.
#[tactic(auto, using(refusals::proofs::Asking::asking), unfolding(lists::specs::Questions::first_no))]
fn read_to(line: &[u8], figures: &mut [u64]) -> Result<ReadLine, Refusal>
    requires { length figures.old ≡ 513 }
    ensures number { number result ≡ first_no (read_questions line.now) }
    ensures read { IfOk result (λ read. ReadTo line.now read figures.new) }
{
    ask(line.len() <= LONGEST, Refusal::LineLength)?;
    let start = line_start(line).ok_or(Refusal::LineStart)?;
    let bytes = &line[start.length()..];
    let fields = count_fields(bytes);
    ask(start.fits(fields), Refusal::FieldCount)?;
    read_fields(bytes, &mut figures[..fields])?;
    Ok(ReadLine { start, fields })
}

// Reads a line, its end byte 10 removed: questions 26 to 30. The figures go to a list of its own first, so a refusal leaves the lent one as it was.
pub fn read_line(line: &[u8], figures: &mut [u64]) -> Result<ReadLine, Refusal>
    ensures { ◌≡◌ {A = ReadEnd} (record { answer = line_of result; figures = figures.new }) (read_call line.now figures.old) }
{
    let mut own: [u64; FIELDS] = [0; FIELDS];
    let read = read_to(line, &mut own)?;
    ask(read.fields <= figures.len(), Refusal::ListLength)?;
    copy_into(&own[..read.fields], figures);
    Ok(read)
}
