// A ratio of at most 1 by which many figures are multiplied: its first binary digits are worked out once, and a product then needs no division.
ghost use Rattle.std.specs.Prelude.{◌≡◌, ◌*◌, ◌/◌, ◌%◌, ◌^◌, ◌≤◌, ◌<◌};

use crate::Modulation;
use plants::Plant;

// part / whole, with its first 20 binary digits, the 42 digits after them, and the first 42.
#[derive(Clone, Copy)]
pub struct Ratio {
    pub part: u64,
    pub whole: u64,
    pub high: u64,
    pub low: u64,
    pub middle: u64,
    ghost at_most_one: { part ≤ whole },
    ghost some: { 0 < whole },
    ghost small: { whole < 2 ^ 43 },
    ghost first: { high ≡ part * 2 ^ 20 / whole },
    ghost next: { low ≡ 2 ^ 42 * (part * 2 ^ 20 % whole) / whole },
    ghost both: { middle ≡ 2 ^ 42 * part / whole },
}

impl Ratio {
    pub fn new(part: u64, whole: u64) -> Self
        requires { (part ≤ whole) × (0 < whole) × (whole < 2 ^ 43) }
        ensures { (result.part ≡ part) × (result.whole ≡ whole) }
    {
        let shifted = part * (1 << 20);
        let rest = shifted % whole;
        Ratio {
            part,
            whole,
            high: shifted / whole,
            low: wide::mul_div(1 << 42, rest, whole),
            middle: wide::mul_div(1 << 42, part, whole),
        }
    }

    // The ratio times t, rounded down. The digits settle it unless the product comes within 2^-21 of the next whole number.
    pub fn times(self, t: u64) -> u64
        requires { t < 2 ^ 40 }
        ensures { result ≡ t * self.part / self.whole }
    {
        let upper = t / (1 << 20);
        let lower = t % (1 << 20);
        let behind = upper * self.low + lower * self.middle;
        if behind % (1 << 42) + upper + lower < 1 << 42 {
            return upper * self.high + behind / (1 << 42);
        }
        wide::mul_div(t, self.part, self.whole)
    }
}

// The running totals before a period and up to it, as ratios to the whole.
#[derive(Clone, Copy)]
pub struct Ratios {
    before: Ratio,
    upto: Ratio,
    ghost same: { before.whole ≡ upto.whole },
    ghost rising: { before.part ≤ upto.part },
}

impl Ratios {
    ghost use Rattle.modulation.specs.Guarantee.{guarantee_with};
    ghost use Rattle.modulation.specs.Totals.{Ordered, part_by};

    pub fn new(m: Modulation) -> Self
        requires { Ordered m }
        ensures { (result.before.part ≡ m.before) × (result.upto.part ≡ m.upto) × (result.upto.whole ≡ m.whole) }
    {
        Ratios {
            before: Ratio::new(m.before, m.whole),
            upto: Ratio::new(m.upto, m.whole),
        }
    }

    // Step 1: the part of Q in this period, by the ratios C(k − 1) / W and Ck / W.
    pub fn modulated(self, q: u64) -> u64
        requires { q ≤ 10 ^ 12 }
        ensures { result ≡ part_by self q }
    {
        self.upto.times(q) - self.before.times(q)
    }

    // Step 2: that of a plant, times loss, rounded down; the result times availability, rounded down.
    pub fn guaranteed(self, plant: Plant) -> u64
        requires { (plant.guarantee ≤ 10 ^ 12) × (plant.loss ≤ 1000000) × (plant.availability ≤ 1000000) }
        ensures { result ≡ guarantee_with (part_by self) plant }
    {
        let part = self.modulated(plant.guarantee);
        let delivered = part * plant.loss / 1000000;
        delivered * plant.availability / 1000000
    }
}
