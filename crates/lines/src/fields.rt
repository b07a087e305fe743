// Fields of a line, parted by commas: where the next comma stands, and a field handed back as a part of the line. Line and index stay two parameters:
// they are what the field call is given, here and by C.
ghost use Rattle.std.specs.Prelude.{◌≡◌, ◌≤◌, MatchOption, IfOk, MatchResult, length, drop};
ghost use Rattle.refusals.specs.Numbers.{refusal_number, number};
ghost use Rattle.lines.specs.Fields.{to_comma, next_comma, fields, field_number, field_bytes, field_start, Part};
ghost use Rattle.lines.specs.Inner.{first_field, Starts};

use lists::PLANTS;
use refusals::{Refusal, ask};

// The most bytes that a line may have.
pub const LONGEST: usize = 8192;

// The most figures of a line: a G line's period and metered figures.
pub const FIELDS: usize = PLANTS + 1;

// How many bytes stand before the first comma, or in all where there is none.
fn to_comma(bytes: &[u8]) -> usize
    ensures { result ≡ to_comma bytes.now }
{
    bytes.iter().position(|b| *b == b',').unwrap_or(bytes.len())
}

// From a start, the first comma there or later, or the line's end where there is none.
#[tactic(auto, using(crate::proofs::Commas::comma_end), unfolding(crate::specs::Fields::next_comma))]
pub fn next_comma(line: &[u8], from: usize) -> usize
    ensures { result ≡ next_comma line.now from }
{
    if line.len() <= from {
        return from;
    }
    from + to_comma(&line[from..])
}

// The field that starts at a position: its bytes, a part of the line.
pub fn field_at(line: &[u8], from: usize) -> &[u8]
    requires { from ≤ length line.now }
    ensures { Part line.entry result from (first_field (drop from line.now)) }
{
    let end = next_comma(line, from);
    &line[from..end]
}

// Where a field starts, counted from 0 at the line's first byte.
pub fn field_start(line: &[u8], index: u64) -> Option<usize>
    ensures { MatchOption result (length (fields line.now) ≤ index) (Starts line.now index) }
{
    let mut at: usize = 0;
    for _passed in 0..index {
        let end = next_comma(line, at);
        if line.len() <= end {
            return None;
        }
        at = end + 1;
    }
    Some(at)
}

// What the field call asks: 26, then 28. The answer is where the field starts.
#[tactic(auto, using(crate::proofs::Commas::field_asked, crate::proofs::Commas::field_found), unfolding(crate::specs::Fields::field_number, lists::specs::Questions::first_no))]
pub fn ask_field(line: &[u8], index: u64) -> Result<usize, Refusal>
    ensures number { number result ≡ field_number line.now index }
    ensures start { IfOk result (Starts line.now index) }
{
    ask(line.len() <= LONGEST, Refusal::LineLength)?;
    field_start(line, index).ok_or(Refusal::FieldCount)
}

// A refused field call: why, and the empty part of the line that is handed back.
#[derive(Clone, Copy)]
pub struct NoField<'a> {
    pub refusal: Refusal,
    pub part: &'a [u8],
}

// The field call: the field's bytes, a part of the line; refused, an empty one.
pub fn field<'a>(line: &'a [u8], index: u64) -> Result<&'a [u8], NoField<'a>>
    ensures number { MatchResult result (λ part. 0 ≡ field_number line.now index) (λ none. refusal_number none.refusal ≡ field_number line.now index) }
    ensures part { MatchResult result (λ part. Part line.entry part (field_start line.now index) (field_bytes line.now index)) (λ none. Part line.entry none.part (field_start line.now index) (field_bytes line.now index)) }
{
    match ask_field(line, index) {
        Ok(start) => Ok(field_at(line, start)),
        Err(refusal) => Err(NoField {
            refusal,
            part: &line[..0],
        }),
    }
}
