// The month file for C.
ghost use Rattle.std.specs.Prelude.{◌≡◌};
ghost use Rattle.file_lines.specs.State.{at_start};
ghost use Rattle.kept_file.specs.Files.{kept_file_of, kept_lists, FileFed, FileFinished};

use file_calls::FinishAnswer;
use kept_file::{KeptFed, KeptFile};

// kept_file::begin_kept.
#[unsafe(no_mangle)]
pub extern "C" fn iolwarch_file_begin() -> KeptFile
    ensures { result ≡ kept_file_of at_start }
{
    kept_file::begin_kept()
}

// kept_file::feed_kept.
#[unsafe(no_mangle)]
pub extern "C" fn iolwarch_file_feed(
    file: KeptFile,
    part: &[u8],
    line: &mut [u8],
    columns: &mut [u64],
    profile: &mut [u64],
    allotted: &mut [u64],
    accounts: &mut [i64],
) -> KeptFed
    ensures { FileFed file (kept_lists columns.old profile.old allotted.old accounts.old) line.old part.now result (kept_lists columns.new profile.new allotted.new accounts.new) line.new }
{
    kept_file::feed_kept(file, part, line, columns, profile, allotted, accounts)
}

// kept_file::finish_kept.
#[unsafe(no_mangle)]
pub extern "C" fn iolwarch_file_finish(
    file: KeptFile,
    line: &[u8],
    columns: &[u64],
    profile: &[u64],
    allotted: &[u64],
    accounts: &[i64],
    text: &mut [u8],
) -> FinishAnswer
    ensures { FileFinished file (kept_lists columns.now profile.now allotted.now accounts.now) line.now text.old result text.new }
{
    kept_file::finish_kept(file, line, columns, profile, allotted, accounts, text)
}
