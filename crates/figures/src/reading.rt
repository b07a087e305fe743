// Figures read: a field's bytes to the figure that they are.
ghost use Rattle.std.specs.Prelude.{◌≡◌, ◌≤◌, length};
ghost use Rattle.lists.specs.Lists.{every};
ghost use Rattle.figures.specs.Figures.{is_digit, leading_zero, is_figure, ReadAs};

// The digits of a field that is short enough for its figure to fit.
#[tactic(auto, using(crate::proofs::Digits::digits_read))]
fn read_digits(field: &[u8]) -> Option<u64>
    requires { length field.now ≤ 19 }
    ensures { ReadAs (every is_digit field.now) field.now result }
{
    let mut value: u64 = 0;
    for b in field {
        if !b.is_ascii_digit() {
            return None;
        }
        value = 10 * value + u64::from(*b - b'0');
    }
    Some(value)
}

#[tactic(auto, using(lists::proofs::Questions::tests), unfolding(crate::specs::Figures::leading_zero))]
fn has_leading_zero(field: &[u8]) -> bool
    ensures { result ≡ leading_zero field.now }
{
    1 < field.len() && field[0] == b'0'
}

// The figure of a field: question 29 of its bytes.
#[tactic(auto, using(crate::proofs::Digits::figure_asked))]
pub fn read_figure(field: &[u8]) -> Option<u64>
    ensures { ReadAs (is_figure field.now) field.now result }
{
    if !lists::in_range(1, 19, field.len() as u64) {
        return None;
    }
    if has_leading_zero(field) {
        return None;
    }
    read_digits(field)
}
