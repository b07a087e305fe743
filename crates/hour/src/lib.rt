// One hour (document 01, 'One hour', steps 1 to 8).
#![tactic(auto)]

ghost use Rattle.hour.specs.Hour.{hour_of};
ghost use Rattle.hour.specs.Work.{Workable, HourWorked};

use blocks::Blocks;
use lists::PLANTS;
use plants::Plant;
use sharing::Weights;
use transfer::Table;

// What an hour answers: secondary energy Z, the sum A of the guarantees, and both transfer tables.
#[derive(Clone, Copy)]
pub struct Worked {
    pub secondary: u64,
    pub guarantees: u64,
    pub cover_table: Table,
    pub secondary_table: Table,
}

// One hour of the plants, in a period counted from 1: fills the allotment list and the nets. No heap: arrays for the most plants, of which the rows have
// the front. (Plants and profile stay two, see `month`.)
pub fn work(
    plants: &[Plant],
    profile: &[u64],
    period: u64,
    metered: &[u64],
    allotment: &mut [u64],
    nets: &mut [i64],
) -> Worked
    requires { Workable plants.now profile.now period metered.now allotment.old nets.old }
    ensures { HourWorked (hour_of plants.now profile.now metered.now period) result allotment.new nets.new }
{
    let n = plants.len();
    let mut a = [0; PLANTS];
    let mut b = [0; PLANTS];
    let mut d = [0; PLANTS];
    let mut r = [0; PLANTS];
    let mut part = [0; PLANTS];
    let a = &mut a[..n];
    let b = &mut b[..n];
    let d = &mut d[..n];
    let r = &mut r[..n];
    let part = &mut part[..n];
    let guarantees = modulation::guarantees_of(profile, period, plants, a);
    let a = Weights {
        figures: a,
        total: guarantees,
    };
    let secondary = rows::share_out(metered, a, b, r);
    let surplus = rows::prepare(plants, metered, b, r, d, nets, allotment);
    let blocks = Blocks::new(plants);
    let first = cover::meet(blocks, surplus, d, part, allotment);
    let second = cover::meet(blocks, first.rest, r, part, allotment);
    Worked {
        secondary,
        guarantees,
        cover_table: first.table,
        secondary_table: second.table,
    }
}
