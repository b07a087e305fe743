// Arithmetic on signed figures, each function with its result in ℤ.
// Bounds are stated on absolute values, which are natural numbers.
#![tactic(auto)]

ghost use Rattle.std.specs.Prelude.{◌≡◌, ◌+◌, ◌<◌, ◌^◌, pos, nat_abs, ◌+ℤ◌, ◌*ℤ◌, length, get_or, set};
ghost use Rattle.std.proofs.Math.IntN.{sub_ℕ};
ghost use Rattle.signed.specs.Figures.{is_within};

// Net kWh (step 8): metered, less covered guarantee, less right to secondary energy.
pub fn net_of(g: u64, b: u64, r: u64) -> i64
    requires { (g < 2 ^ 61) × ((b < 2 ^ 61) × (r < 2 ^ 61)) }
    ensures { result ≡ sub_ℕ g (b + r) }
{
    g as i64 - b as i64 - r as i64
}

// The sum of two figures.
pub fn plus(x: i64, y: i64) -> i64
    requires { nat_abs x + nat_abs y < 2 ^ 63 }
    ensures { result ≡ x +ℤ y }
{
    x + y
}

// A figure times a number.
pub fn times(x: i64, t: u64) -> i64
    requires { (nat_abs x < 2 ^ 42) × (t < 2 ^ 20) }
    ensures { result ≡ x *ℤ pos t }
{
    x * (t as i64)
}

// Is a figure within a bound of zero?
#[tactic(auto, unfolding(crate::specs::Figures::is_within))]
pub fn is_within(bound: u64, x: i64) -> bool
    ensures { result ≡ is_within bound x }
{
    magnitude(x) <= bound
}

// A figure of a list, added to.
pub fn add_at(figures: &mut [i64], at: usize, x: i64)
    requires { (at < length figures.old) × (nat_abs (get_or figures.old at (pos 0)) + nat_abs x < 2 ^ 63) }
    ensures { figures.new ≡ set figures.old at (get_or figures.old at (pos 0) +ℤ x) }
{
    figures[at] = plus(figures[at], x);
}

// How far a figure is from zero. The lowest one has no opposite in 64 bits.
pub fn magnitude(z: i64) -> u64
    ensures { result ≡ nat_abs z }
{
    z.unsigned_abs()
}
