// The calls on lines for C.
ghost use Rattle.std.specs.Prelude.{◌≡◌};
ghost use Rattle.lines.specs.Reading.{ReadEnd, read_call};
ghost use Rattle.places.specs.Parts.{field_place};

use lines::reading::Line;
use places::FieldPlace;

// lines::reading::read_line.
#[unsafe(no_mangle)]
pub extern "C" fn iolwarch_read_line(line: &[u8], figures: &mut [u64]) -> Line
    ensures { ◌≡◌ {A = ReadEnd} (record { answer = result; figures = figures.new }) (read_call line.now figures.old) }
{
    Line::from(lines::reading::read_line(line, figures))
}

// places::field_place.
#[unsafe(no_mangle)]
pub extern "C" fn iolwarch_field(line: &[u8], index: u64) -> FieldPlace
    ensures { result ≡ field_place line.now index }
{
    places::field_place(line, index)
}
