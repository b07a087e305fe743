// A field of a line by its start and its length: a part of the line cannot cross to C.
#![tactic(auto)]

ghost use Rattle.std.specs.Prelude.{◌≡◌};
ghost use Rattle.places.specs.Parts.{field_place};

use lines::fields::{ask_field, field_at};
use refusals::told;

// What the field call answers to C: the number, since no `Result` can cross, and the part of the line by its start and its length.
#[repr(C)]
#[derive(Clone, Copy)]
pub struct FieldPlace {
    pub number: u64,
    pub start: u64,
    pub length: u64,
}

// lines::fields::field, with the part's start and length in its place.
#[tactic(auto, using(crate::proofs::Places::no_place, crate::proofs::Places::placed, refusals::proofs::Asking::refused_number), unfolding(refusals::specs::Numbers::told))]
pub fn field_place(line: &[u8], index: u64) -> FieldPlace
    ensures { result ≡ field_place line.now index }
{
    let place = ask_field(line, index).map(|start| (
        start as u64,
        field_at(line, start).len() as u64,
    ));
    let (number, (start, length)) = told(place, (0, 0));
    FieldPlace {
        number,
        start,
        length,
    }
}
