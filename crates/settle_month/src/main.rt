// `settle-month`: reads a month file from standard input and writes its statement, or the refusal, to standard output (document 01, 'The file
// and its statement'). All that it keeps lies in arrays of `main`.
#![tactic(auto)]

ghost use Rattle.std.specs.Prelude.{◌≡◌, ◌≤◌, true, is_some, length, take};
ghost use Rattle.std.specs.Io.KnownBytes.{Appends};
ghost use Rattle.lines.specs.Fields.{longest};
ghost use Rattle.statement.specs.Statement.{room_for};
ghost use Rattle.file_lines.specs.State.{at_start};
ghost use Rattle.file_lines.specs.Lists.{lent_lists, SameLists};
ghost use Rattle.month_file.specs.Machine.{Fed};
ghost use Rattle.month_file.specs.Run.{place};
ghost use Rattle.settle_month.specs.Input.{Taken, Settled};

use file_lines::beginning::fresh;
use file_lines::lent::LentFile;
use ledger::{ACCOUNTS, ALLOTTED};
use lines::fields::LONGEST;
use lists::{PERIODS, PLANTS};
use month_file::feeding::feed;
use month_file::finishing::finish;
use plants::Plant;
use records::tables::PlantTable;
use std::io::{Read, Write};

// Feeds the bytes that a read put at the front of the part: all that it answered, and once.
fn take_part<T: PlantTable>(
    file: &mut LentFile<'_, '_, '_, '_, T>,
    part: &[u8],
    got: usize,
    line: &mut [u8],
)
    requires { longest ≤ length line.old }
    ensures fed { Fed file.old.state (lent_lists T.rows file.old) line.old (take got part.now) file.new.state (lent_lists T.rows file.new) line.new }
    ensures same { SameLists file.old file.new }
{
    let n = got.min(part.len());
    feed(file, &part[..n], line);
}

// Feeds what the input holds, part by part, to its end; none where it cannot be read to it. Where the reader says what it gives, these are its bytes, each
// once, and all of them where something is answered. Standard input says nothing: `read` alone knows of its end. Nothing says that an input ends, so the
// turns are counted, up to a number that no run uses up.
fn take_input<R: Read, T: PlantTable>(
    input: &mut R,
    file: &mut LentFile<'_, '_, '_, '_, T>,
    part: &mut [u8],
    line: &mut [u8],
) -> Option<()>
    requires { longest ≤ length line.old }
    ensures taken { Taken (R.remaining input.old) (R.remaining input.new) (length part.old) (is_some result) (place file.old.state (lent_lists T.rows file.old) line.old) (place file.new.state (lent_lists T.rows file.new) line.new) }
    ensures same { SameLists file.old file.new }
{
    for _ in 0..u64::MAX {
        match input.read(part) {
            Ok(0) => return Some(()),
            Ok(got) => take_part(file, part, got, line),
            Err(_) => return None,
        }
    }
    None
}

// Settles the file that the input holds: what is to be printed stands at the front of the text. Answers its length; none, and nothing is written, where
// the input cannot be read to its end.
fn settle_input<R: Read, T: PlantTable>(
    input: &mut R,
    file: &mut LentFile<'_, '_, '_, '_, T>,
    part: &mut [u8],
    line: &mut [u8],
    text: &mut [u8],
) -> Option<usize>
    requires longest_in_bounds { (longest ≤ length line.old) × (room_for 512 ≤ length text.old) }
    requires fresh { file.old.state ≡ at_start }
    ensures { Settled (R.remaining input.old) (length part.old) text.old result text.new }
{
    take_input(input, file, part, line)?;
    Some(finish(file.state, line, file.view(), text))
}

// Writes all of the bytes, or answers no. (No `Result`, here and above: `main` tells one message for any error, and shows none.)
fn wrote<W: Write>(output: &mut W, bytes: &[u8]) -> bool
    ensures { result ≡ true → Appends (W.contents output.old) (W.contents output.new) bytes.now }
{
    output.write_all(bytes).is_ok()
}

// Writes a line to standard error. Where that fails too, nobody can be told.
fn tell(rt: &HostRuntime, line: &[u8]) {
    wrote(&mut rt.stderr(), line);
}

#[tactic(auto, unfolding(statement::specs::Statement::room_for))]
fn main(rt: HostRuntime) {
    let mut part = [0u8; 65536];
    let mut line = [0u8; LONGEST];
    let mut plants = [Plant::default(); PLANTS];
    let mut profile = [0u64; PERIODS];
    let mut allotted = [0u64; ALLOTTED * PLANTS];
    let mut accounts = [0i64; ACCOUNTS * PLANTS];
    let mut text = [0u8; 128 * PLANTS + 128];
    let mut file = LentFile {
        state: fresh(),
        plants: &mut plants,
        profile: &mut profile,
        allotted: &mut allotted,
        accounts: &mut accounts,
    };
    let Some(length) = settle_input(&mut rt.stdin(), &mut file, &mut part, &mut line, &mut text)
    else {
        tell(&rt, b"settle-month: standard input cannot be read\n");
        return;
    };
    if !wrote(&mut rt.stdout(), &text[..length]) {
        tell(&rt, b"settle-month: standard output cannot be written\n");
    }
}
