// Steps 3, 4, 7 and 8 of an hour (document 01, 'One hour') for each plant: covered guarantees, rights, surpluses, deficits, and nets.
// All lists have a figure for each plant.
#![tactic(auto)]

ghost use Rattle.std.specs.Prelude.{◌≡◌, ◌-◌, ◌*◌, ◌^◌, ◌≤◌, ◌<◌, length};
ghost use Rattle.std.proofs.Math.IntN.{sub_ℕ};
ghost use Rattle.lists.specs.Lists.{sum, most, Within};
ghost use Rattle.lists.specs.Columns.{rowwise, ◌⊕◌, ◌⊖◌, ◌⊓◌, within, four, totals, by_row};
ghost use Rattle.sharing.specs.Sharing.{share};
ghost use Rattle.plants.specs.Plants.{submarkets_of};
ghost use Rattle.blocks.specs.Portion.{Standing};
ghost use Rattle.rows.specs.Steps.{covered_by, rights_by};

use plants::Plant;
use sharing::Weights;

// Step 7: rights to secondary energy r. Beside `share_up_to`: test and copied list differ, and one function would take both as arguments.
pub fn rights_into(secondary: u64, a: Weights<'_>, metered: &[u64], r: &mut [u64])
    requires { (length metered.now ≡ length a.figures.now) × (length r.old ≡ length a.figures.now) }
    ensures { r.new ≡ rights_by share secondary a.entry.figures.now metered.now }
{
    if a.total == 0 {
        lists::copy_into(metered, r);
    } else {
        sharing::share_into(secondary, a, r);
    }
}

// Step 3, and the rights of step 7: fills b and r from the guarantees a, and answers Z.
pub fn share_out(metered: &[u64], a: Weights<'_>, b: &mut [u64], r: &mut [u64]) -> u64
    requires metered_bound { sum metered.now < 2 ^ 62 }
    requires metered_len { (length metered.now ≡ length a.figures.now) × (length b.old ≡ length a.figures.now) × (length r.old ≡ length a.figures.now) }
    ensures b_after { b.new ≡ covered_by share (sum metered.now) a.entry.figures.now }
    ensures r_after { r.new ≡ rights_by share (sum metered.now - sum a.entry.figures.now) a.entry.figures.now metered.now }
    ensures value { result ≡ sum metered.now - sum a.entry.figures.now }
{
    let generation = lists::sum_of(metered);
    let secondary = generation.saturating_sub(a.total);
    sharing::share_up_to(generation, a, b);
    rights_into(secondary, a, metered, r);
    secondary
}

// Step 4: deficits d.
pub fn deficits_into(covered: &[u64], metered: &[u64], d: &mut [u64])
    requires { (length metered.now ≡ length covered.now) × (length d.old ≡ length covered.now) }
    ensures { d.new ≡ covered.now ⊖ metered.now }
{
    // by index, as in `nets_into` and `start_into`: of what a loop over a zip of `iter_mut` wrote, nothing is known after it
    for (i, b) in covered.iter().enumerate() {
        d[i] = b.saturating_sub(metered[i]);
    }
}

// Step 8: nets.
pub fn nets_into(metered: &[u64], covered: &[u64], rights: &[u64], nets: &mut [i64])
    requires covered_len { (length covered.now ≡ length metered.now) × (length rights.now ≡ length metered.now) × (length nets.old ≡ length metered.now) }
    requires within { Within metered.now most × Within covered.now most × Within rights.now most }
    ensures { nets.new ≡ rowwise sub_ℕ 0 0 metered.now (covered.now ⊕ rights.now) }
{
    for (i, g) in metered.iter().enumerate() {
        nets[i] = signed::net_of(*g, covered[i], rights[i]);
    }
}

// Step 4: the surpluses U of the submarkets.
#[tactic(auto, using(crate::proofs::Submarkets::placed))]
pub fn surplus_by(plants: &[Plant], metered: &[u64], covered: &[u64]) -> [u64; 4]
    requires metered_len { (length metered.now ≡ length plants.now) × (length covered.now ≡ length plants.now) }
    requires standing { Standing 0 (submarkets_of plants.now) }
    requires metered_bound { sum metered.now ≤ most }
    ensures { result ≡ totals (submarkets_of plants.now) (metered.now ⊖ covered.now) }
{
    let mut surplus = [0; 4];
    // by index: each row adds to the sum of its own submarket
    for (i, plant) in plants.iter().enumerate() {
        let s = (plant.submarket - 1) as usize;
        surplus[s] += metered[i].saturating_sub(covered[i]);
    }
    surplus
}

// Step 8, begun: min(G, b) in the own submarket, zero in the others; four zeros for a row in none of the four.
#[tactic(auto, using(lists::proofs::Questions::limits))]
pub fn start_into(plants: &[Plant], metered: &[u64], covered: &[u64], allotment: &mut [u64])
    requires metered_len { (length metered.now ≡ length plants.now) × (length covered.now ≡ length plants.now) }
    requires allotment_len { length allotment.old ≡ 4 * length plants.now }
    ensures { allotment.new ≡ by_row 0 (four (λ s. within s (submarkets_of plants.now) (metered.now ⊓ covered.now))) }
{
    allotment.fill(0);
    for (i, plant) in plants.iter().enumerate() {
        if lists::in_range(1, 4, plant.submarket) {
            let s = (plant.submarket - 1) as usize;
            allotment[4 * i + s] = metered[i].min(covered[i]);
        }
    }
}

// Step 4, and step 8 begun: fills deficits, nets and the allotment's own figures, and answers the surpluses U.
pub fn prepare(
    plants: &[Plant],
    metered: &[u64],
    covered: &[u64],
    rights: &[u64],
    d: &mut [u64],
    nets: &mut [i64],
    allotment: &mut [u64],
) -> [u64; 4]
    requires metered_len { (length metered.now ≡ length plants.now) × (length covered.now ≡ length plants.now) × (length rights.now ≡ length plants.now) }
    requires d_len { (length d.old ≡ length plants.now) × (length nets.old ≡ length plants.now) × (length allotment.old ≡ 4 * length plants.now) }
    requires standing { Standing 0 (submarkets_of plants.now) }
    requires metered_bound { (sum metered.now ≤ most) × (sum covered.now ≤ most) × (sum rights.now ≤ most) }
    ensures d_after { d.new ≡ covered.now ⊖ metered.now }
    ensures nets_after { nets.new ≡ rowwise sub_ℕ 0 0 metered.now (covered.now ⊕ rights.now) }
    ensures allotment_after { allotment.new ≡ by_row 0 (four (λ s. within s (submarkets_of plants.now) (metered.now ⊓ covered.now))) }
    ensures value { result ≡ totals (submarkets_of plants.now) (metered.now ⊖ covered.now) }
{
    deficits_into(covered, metered, d);
    nets_into(metered, covered, rights, nets);
    start_into(plants, metered, covered, allotment);
    surplus_by(plants, metered, covered)
}
