// Sharing (document 01, 'Sharing'): the rule on slices, and the public call.
#![tactic(auto)]

ghost use Rattle.std.specs.Prelude.{◌≡◌, ◌++◌, ◌^◌, ◌≤◌, ◌<◌, IsSome, IfSome, ◌↔◌, length, drop};
ghost use Rattle.lists.specs.Lists.{sum};
ghost use Rattle.sharing.specs.Sharing.{share, up_to_weights};
ghost use Rattle.refusals.specs.Numbers.{number};
ghost use Rattle.sharing.specs.Calls.{Shared, sharing_call};

use lists::LIMIT;
use refusals::{Refusal, ask};

// Weights with their sum W, which is below 2^62.
#[derive(Clone, Copy)]
pub struct Weights<'a> {
    pub figures: &'a [u64],
    pub total: u64,
    pub ghost adds: { total ≡ sum figures.now },
    pub ghost small: { total < 2 ^ 62 },
}

impl<'a> Weights<'a> {
    // None where the sum is not below 2^62.
    pub fn of(figures: &'a [u64]) -> Option<Self>
        ensures some { IsSome result ↔ (sum figures.now < 2 ^ 62) }
        ensures value { IfSome result (λ weights. weights.figures.now ≡ figures.now) }
    {
        let total = lists::sum_of(figures);
        if total < LIMIT {
            return Some(Weights { figures, total });
        }
        None
    }
}

// Shares t over the weights into the front of parts. The rest of parts stays. No struct of the three: t changes with each call, weights are read, parts written.
pub fn share_into(t: u64, weights: Weights<'_>, parts: &mut [u64])
    requires { length weights.figures.now ≤ length parts.old }
    ensures { parts.new ≡ share t weights.entry.figures.now ++ drop (length weights.entry.figures.now) parts.old }
{
    let mut c: u64 = 0;
    let mut before: u64 = 0;
    // by index: of what a loop over a zip of `iter_mut` wrote, nothing is known after it
    for (i, weight) in weights.figures.iter().enumerate() {
        c += *weight;
        let up_to = wide::mul_div(t, c, weights.total);
        parts[i] = up_to - before;
        before = up_to;
    }
}

// Shares t over the weights where it is less than their sum, else each weight is its own part: the whole sum needs no division.
pub fn share_up_to(t: u64, weights: Weights<'_>, parts: &mut [u64])
    requires { length weights.figures.now ≤ length parts.old }
    ensures { parts.new ≡ up_to_weights share t weights.entry.figures.now ++ drop (length weights.entry.figures.now) parts.old }
{
    if weights.total <= t {
        lists::copy_into(weights.figures, parts);
    } else {
        share_into(t, weights, parts);
    }
}

// Sharing, with the questions put: an Ok where the parts are written, else parts stays as it was.
#[tactic(auto, unfolding(crate::specs::Calls::sharing_call, crate::specs::Calls::sharing_number, lists::specs::Questions::first_no, lists::specs::Questions::outcome))]
pub fn share(total: u64, weights: &[u64], parts: &mut [u64]) -> Result<(), Refusal>
    ensures { ◌≡◌ {A = Shared} (record { number = number result; parts = parts.new }) (sharing_call total weights.now parts.old) }
{
    // the lengths before the sum: unequal lists cost nothing
    ask(weights.len() == parts.len(), Refusal::Weights)?;
    let weights = Weights::of(weights).ok_or(Refusal::Weights)?;
    ask(total < LIMIT, Refusal::Weights)?;
    ask(total == 0 || weights.total > 0, Refusal::NoWeight)?;
    share_into(total, weights, parts);
    Ok(())
}
