// The month file's state and lists as a C program keeps them, and its calls. The stages of the state and of its month cross as numbers, and the plant
// table as five columns.
#![tactic(auto, unfolding(crate::specs::Files::stage_of, crate::specs::Files::stage_number, crate::specs::Files::file_of, crate::specs::Files::kept_at, crate::specs::Files::kept_file_of))]

ghost use Rattle.std.specs.Prelude.{◌≡◌, cond, ltb};
ghost use Rattle.refusals.specs.Numbers.{refusal_number};
ghost use Rattle.file_lines.specs.State.{at_start};
ghost use Rattle.kept_file.specs.Files.{file_of, kept_at, kept_file_of, kept_lists, FileFed, FileFinished};

use file_calls::{FinishAnswer, feed_any, finish_any};
use file_lines::lent::FileView;
use file_lines::{FileStage, MonthFile};
use kept_month::KeptMonth;
use records::COLUMNS;
use refusals::Refusal;

// How far a month file has come, as the caller keeps it: C may set a stage or a refusal to any number.
#[repr(C)]
#[derive(Clone, Copy)]
pub struct KeptFile {
    pub stage: u64,
    pub length: u64,
    pub count: u64,
    pub plants: u64,
    pub periods: u64,
    pub tariff: u64,
    pub rows: u64,
    pub figures: u64,
    pub month: KeptMonth,
    pub number: u64,
}

// What feed answers C, to which no `Result` can cross: the number, and the state handed back.
#[repr(C)]
#[derive(Clone, Copy)]
pub struct KeptFed {
    pub number: u64,
    pub file: KeptFile,
}

// The state that is meant.
impl From<KeptFile> for MonthFile {
    ghost from_gives = { λ kept file. file ≡ file_of kept };

    fn from(kept: KeptFile) -> MonthFile {
        MonthFile {
            stage: match kept.stage {
                0 => FileStage::First,
                1 => FileStage::Gathering,
                2 => FileStage::Metering,
                _ => FileStage::Refused,
            },
            length: kept.length as usize,
            count: kept.count,
            plants: kept.plants,
            periods: kept.periods,
            tariff: kept.tariff,
            rows: kept.rows as usize,
            figures: kept.figures as usize,
            month: kept.month.into(),
            number: kept.number,
        }
    }
}

impl From<MonthFile> for KeptFile {
    ghost from_gives = { λ file kept. kept ≡ kept_file_of file };

    fn from(file: MonthFile) -> KeptFile {
        KeptFile {
            stage: file.stage as u64,
            length: file.length as u64,
            count: file.count,
            plants: file.plants,
            periods: file.periods,
            tariff: file.tariff,
            rows: file.rows as u64,
            figures: file.figures as u64,
            month: file.month.into(),
            number: file.number,
        }
    }
}

// file_lines::beginning::fresh, for C.
pub fn begin_kept() -> KeptFile
    ensures { result ≡ kept_file_of at_start }
{
    file_lines::beginning::fresh().into()
}

// The state after a part that was taken. A stage above 2, which was read as refused, stays the number that it was.
fn taken(kept: KeptFile, file: MonthFile) -> KeptFile
    ensures { result ≡ cond (ltb 2 kept.stage) (kept_at kept.stage (file_of kept)) (kept_file_of file) }
{
    let meant = MonthFile::from(kept);
    if meant.stage == FileStage::Refused {
        return KeptFile {
            stage: kept.stage,
            ..meant.into()
        };
    }
    file.into()
}

// A part that was not taken: the caller's own state comes back.
fn refused(file: KeptFile, refusal: Refusal) -> KeptFed
    ensures { result ≡ record { number = refusal_number refusal; file = file } }
{
    KeptFed {
        number: refusal.number(),
        file,
    }
}

// file_calls::feed_any, with the lists as C lends them.
pub fn feed_kept(
    file: KeptFile,
    part: &[u8],
    line: &mut [u8],
    columns: &mut [u64],
    profile: &mut [u64],
    allotted: &mut [u64],
    accounts: &mut [i64],
) -> KeptFed
    ensures { FileFed file (kept_lists columns.old profile.old allotted.old accounts.old) line.old part.now result (kept_lists columns.new profile.new allotted.new accounts.new) line.new }
{
    let Some(table) = columns.first_chunk_mut::<COLUMNS>() else {
        return refused(file, Refusal::ListLength);
    };
    let mut meant = MonthFile::from(file);
    match feed_any(&mut meant, part, line, table, profile, allotted, accounts) {
        Ok(()) => KeptFed {
            number: 0,
            file: taken(file, meant),
        },
        Err(refusal) => refused(file, refusal),
    }
}

// file_calls::finish_any, with the lists as C lends them.
pub fn finish_kept(
    file: KeptFile,
    line: &[u8],
    columns: &[u64],
    profile: &[u64],
    allotted: &[u64],
    accounts: &[i64],
    text: &mut [u8],
) -> FinishAnswer
    ensures { FileFinished file (kept_lists columns.now profile.now allotted.now accounts.now) line.now text.old result text.new }
{
    let Some(table) = columns.first_chunk::<COLUMNS>() else {
        return FinishAnswer::from(Err(Refusal::ListLength));
    };
    let lists = FileView {
        plants: table,
        profile,
        allotted,
        accounts,
    };
    finish_any(file.into(), line, lists, text).into()
}
