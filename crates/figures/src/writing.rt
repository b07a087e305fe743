// Figures written: the shortest decimal, a minus before one below zero. Every function answers the position behind what it wrote.
// Text and position stay two parameters: a struct of them (tried) wants a second clause in each contract, that its reference stays the same.
ghost use Rattle.std.specs.Prelude.{◌≡◌, ℕ, List, [], ◌∷◌, suc, ◌+◌, ◌≤◌, ◌<◌, length};
ghost use Rattle.figures.specs.Figures.{figure, figure_length, signed_figure, Wrote};

// How many bytes the figure takes, by std's logarithm.
#[tactic(auto, using(crate::proofs::Decimal::length_by_log))]
pub fn figure_length(x: u64) -> usize
    ensures { result ≡ figure_length x }
{
    x.max(1).ilog10() as usize + 1
}

// A number as a figure, signed or not: its text, and how it is written from a position on.
pub trait Figure: Copy {
    ghost digits: { Self → List ℕ };

    fn write(self, text: &mut [u8], at: usize) -> usize
        requires { at + length (digits self) ≤ length text.old }
        ensures { Wrote (digits self) at text.old text.new result };
}

// Last digit first, by hand. (std's Display, tried by `write!` to the bytes and by `InlineText::of`: no clause of theirs says that a figure with room is
// written whole, so the contract is not proved. The kit's `itoa` is no part of std, which alone this project links.)
impl Figure for u64 {
    ghost digits = { figure };

    #[tactic(auto, using(crate::proofs::Decimal::writing, crate::proofs::Decimal::wrote), unfolding(crate::specs::Figures::figure_length))]
    fn write(self, text: &mut [u8], at: usize) -> usize {
        let end = at + figure_length(self);
        let mut rest = self;
        // (By index: tried, after `iter_mut().rev()` a proof knows none of the bytes.)
        for i in (at..end).rev() {
            text[i] = b'0' + (rest % 10) as u8;
            rest /= 10;
        }
        end
    }
}

// A minus where it is below zero; the same reason as above.
impl Figure for i64 {
    ghost digits = { signed_figure };

    fn write(self, text: &mut [u8], at: usize) -> usize {
        let x = signed::magnitude(self);
        if self < 0 {
            text[at] = b'-';
            return x.write(text, at + 1);
        }
        x.write(text, at)
    }
}

// Writes one byte.
#[tactic(auto, using(crate::proofs::Written::wrote_byte))]
pub fn write_byte(b: u8, text: &mut [u8], at: usize) -> usize
    requires { at < length text.old }
    ensures { Wrote (b ∷ []) at text.old text.new result }
{
    text[at] = b;
    at + 1
}

// Writes a comma and the figure.
pub fn write_field<F: Figure>(x: F, text: &mut [u8], at: usize) -> usize
    requires { at + suc (length (F.digits x)) ≤ length text.old }
    ensures { Wrote (44 ∷ F.digits x) at text.old text.new result }
{
    let next = write_byte(b',', text, at);
    x.write(text, next)
}
