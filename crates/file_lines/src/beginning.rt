// Before the first line, and the first line.
ghost use Rattle.std.specs.Prelude.{◌≡◌, ◌+◌};
ghost use Rattle.file_lines.specs.File.{begun};
ghost use Rattle.file_lines.specs.State.{Kept, Lent, Moved, at_start};

use crate::{FileStage, MonthFile};
use questions::ask_sizes;

// Before the first byte.
pub fn fresh() -> MonthFile
    ensures { result ≡ at_start }
{
    MonthFile::default()
}

// 2 to 4 on the first line.
pub fn begun(file: MonthFile, periods: u64, plants: u64, tariff: u64) -> MonthFile
    requires { file.count ≡ 0 }
    ensures { (k : Kept) → Lent k → Moved file (begun (file.count + 1) (record { periods = periods; plants = plants; tariff = tariff })) result k }
{
    match ask_sizes(plants, periods, tariff) {
        Ok(()) => MonthFile {
            plants,
            periods,
            tariff,
            rows: 0,
            figures: 0,
            ..file.at_stage(FileStage::Gathering)
        },
        Err(refusal) => file.refused(refusal),
    }
}
