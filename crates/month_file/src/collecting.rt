// Bytes collected to a line.
ghost use Rattle.std.specs.Prelude.{◌≡◌, ◌≤◌, ◌==◌, length, position};
ghost use Rattle.lines.specs.Fields.{longest};
ghost use Rattle.month_file.specs.Machine.{Collected};

use lines::fields::LONGEST;

// Where the first byte 10 stands.
fn line_end(bytes: &[u8]) -> Option<usize>
    ensures { result ≡ position (λ b. b == 10) bytes.now }
{
    bytes.iter().position(|b| *b == b'\n')
}

// Takes bytes from a part to a line that has some, up to a byte 10, the part's end, or where the line is full; answers where they stop.
// The line's room is asked here and above: a struct with it as a fact would have each of these functions promise that it holds the same list still.
pub fn collect(part: &[u8], from: usize, line: &mut [u8], at: usize) -> usize
    requires { (from ≤ length part.now) × (at ≤ longest) × (longest ≤ length line.old) }
    ensures { Collected part.now from line.old at result line.new }
{
    let rest = &part[from..];
    let room = rest.len().min(LONGEST - at);
    let taken = line_end(&rest[..room]).unwrap_or(room);
    lists::copy_into(&rest[..taken], &mut line[at..at + taken]);
    from + taken
}
