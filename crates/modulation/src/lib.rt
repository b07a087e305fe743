// Steps 1 and 2 of an hour (document 01, 'One hour'): the guarantee Q shared over the profile, then losses and availability.
#![tactic(auto)]

ghost use Rattle.std.specs.Prelude.{◌≡◌, ◌^◌, ◌≤◌, ◌<◌, length, map};
ghost use Rattle.lists.specs.Lists.{sum};
ghost use Rattle.modulation.specs.Guarantee.{guarantee_in, InLimits};
ghost use Rattle.modulation.specs.Totals.{Ordered, modulation_of, guarantee_of};

use crate::ratio::Ratios;
use plants::Plant;

pub mod ratio;

// What step 1 takes from the profile for period k: the running totals C(k − 1) and Ck, and the whole W.
#[derive(Clone, Copy)]
pub struct Modulation {
    pub before: u64,
    pub upto: u64,
    pub whole: u64,
}

// The running totals at a period, counted from 1.
pub fn modulation_at(profile: &[u64], period: u64) -> Modulation
    requires le_period { (1 ≤ period) × (period ≤ length profile.now) }
    requires profile_bound { sum profile.now < 2 ^ 62 }
    ensures { result ≡ modulation_of profile.now period }
{
    let k = period as usize;
    let last = k - 1;
    let before = lists::sum_of(&profile[..last]);
    let upto = before + profile[last];
    let whole = upto + lists::sum_of(&profile[k..]);
    Modulation {
        before,
        upto,
        whole,
    }
}

// Steps 1 and 2 for each plant.
pub fn guarantees_into(m: Modulation, plants: &[Plant], out: &mut [u64])
    requires ordered { Ordered m }
    requires out_len { length out.old ≡ length plants.now }
    requires within { InLimits plants.now }
    ensures { out.new ≡ map (guarantee_of m) plants.now }
{
    let ratios = Ratios::new(m);
    // by index: of what a loop over a zip of `iter_mut` wrote, nothing is known after it
    for (i, plant) in plants.iter().enumerate() {
        out[i] = ratios.guaranteed(*plant);
    }
}

// Steps 1 and 2 of a period: fills the guarantees a, and answers their sum A.
pub fn guarantees_of(profile: &[u64], period: u64, plants: &[Plant], a: &mut [u64]) -> u64
    requires le_period { (1 ≤ period) × (period ≤ length profile.now) × (0 < sum profile.now) × (sum profile.now < 2 ^ 43) }
    requires a_len { (length a.old ≡ length plants.now) × (length plants.now ≤ 512) }
    requires within { InLimits plants.now }
    ensures a_after { a.new ≡ map (guarantee_in profile.now period) plants.now }
    ensures value { result ≡ sum a.new }
{
    guarantees_into(modulation_at(profile, period), plants, a);
    lists::sum_of(a)
}
