// Each submarket's rows form one block (document 01): where the blocks start, their sums, and an amount for each shared over its rows.
#![tactic(auto)]

ghost use Rattle.std.specs.Prelude.{◌≡◌, ℕ, ◌+◌, ◌*◌, ◌^◌, ◌≤◌, ◌<◌, leb, length, take, take_while, get_or};
ghost use Rattle.lists.specs.Lists.{sum, Within};
ghost use Rattle.lists.specs.Columns.{◌⊖◌, Below, totals};
ghost use Rattle.sharing.specs.Sharing.{share};
ghost use Rattle.blocks.specs.Portion.{portion};
ghost use Rattle.blocks.specs.Blocks.{block_starts, standing_at, Raised, in_column, in_columns, Room};
ghost use Rattle.plants.specs.Plants.{submarkets_of};

use plants::Plant;
use sharing::Weights;

// How many plants, from the first on, stand in submarkets up to s.
fn leading(s: u64, plants: &[Plant]) -> usize
    ensures { result ≡ length (take_while (λ p. leb p.submarket s) plants.now) }
{
    plants
        .iter()
        .take_while(|plant| plant.submarket <= s)
        .count()
}

// Where the submarkets' blocks start, and the last one ends: they lie one behind the other.
#[derive(Clone, Copy)]
pub struct Blocks {
    pub starts: [usize; 5],
    pub ghost first: { get_or starts 0 0 ≡ 0 },
    pub ghost next: { (s : ℕ) → s < 4 → get_or starts s 0 ≤ get_or starts (s + 1) 0 },
}

// Gives each row its part: its want falls by it, and its figure in the column rises by it.
fn hand_over(column: usize, part: &[u64], want: &mut [u64], figures: &mut [u64])
    requires part_in_bounds { (length part.now ≤ length want.old) × (4 * length part.now ≤ length figures.old) × (column < 4) }
    requires below { Below part.now want.old × Room want.old figures.old }
    ensures want_after { want.new ≡ want.old ⊖ part.now }
    ensures raised { Raised (in_column column part.now) figures.old figures.new }
{
    // by index: of what a loop over a zip of `iter_mut` wrote, nothing is known after it
    for (i, p) in part.iter().enumerate() {
        want[i] -= *p;
        figures[4 * i + column] += *p;
    }
}

// Shares an amount over the wants of the first n rows, whose sum is total, and hands it over. The count stands beside the lists because they are lent from
// the block's first row onward, the form that document 01 names. The three lists are no struct, here, in `share` and in cover: parts of them are lent on
// apart, and each contract would want one clause more, that the lists are the same ones after the call.
#[tactic(auto, using(crate::proofs::Shares::front_parts))]
fn share_block(
    amount: u64,
    total: u64,
    n: usize,
    column: usize,
    want: &mut [u64],
    part: &mut [u64],
    figures: &mut [u64],
)
    requires n_in_bounds { (n ≤ length want.old) × (n ≤ length part.old) × (4 * n ≤ length figures.old) × (column < 4) }
    requires total_value { (total ≡ sum (take n want.old)) × (total < 2 ^ 62) × (amount ≤ total) × Room want.old figures.old }
    ensures want_after { want.new ≡ want.old ⊖ share amount (take n want.old) }
    ensures raised { Raised (in_column column (share amount (take n want.old))) figures.old figures.new }
{
    if amount == 0 {
        return;
    }
    let wants = Weights {
        figures: &want[..n],
        total,
    };
    sharing::share_up_to(amount, wants, part);
    hand_over(column, &part[..n], want, figures);
}

impl Blocks {
    // Those of a table of plants.
    pub fn new(plants: &[Plant]) -> Self
        ensures { result.starts ≡ block_starts (submarkets_of plants.now) }
    {
        let b = leading(1, plants);
        let c = b + leading(2, &plants[b..]);
        let d = c + leading(3, &plants[c..]);
        let e = d + leading(4, &plants[d..]);
        Blocks {
            starts: [0, b, c, d, e],
        }
    }

    // The sum of block s (0 to 3).
    #[tactic(auto, using(crate::proofs::Slices::total_sums))]
    fn sum(self, s: usize, figures: &[u64]) -> u64
        requires { (length figures.now ≡ get_or self.starts 4 0) × (sum figures.now < 2 ^ 62) × (s < 4) }
        ensures { result ≡ get_or (totals (standing_at self.starts) figures.now) s 0 }
    {
        lists::sum_of(&figures[self.starts[s]..self.starts[s + 1]])
    }

    // The sums of the submarkets' rows. (By hand, for the reason at `cover::rest_of`.)
    #[tactic(auto, unfolding(lists::specs::Columns::totals))]
    pub fn sums(self, figures: &[u64]) -> [u64; 4]
        requires { (length figures.now ≡ get_or self.starts 4 0) × (sum figures.now < 2 ^ 62) }
        ensures { result ≡ totals (standing_at self.starts) figures.now }
    {
        [
            self.sum(0, figures),
            self.sum(1, figures),
            self.sum(2, figures),
            self.sum(3, figures),
        ]
    }

    // Shares an amount for each submarket over its block: the lists from the block's first row onward are lent on and written there. Block s
    // hands over to the figures' column columns[s].
    pub fn share(
        self,
        amounts: [u64; 4],
        sums: [u64; 4],
        columns: [usize; 4],
        want: &mut [u64],
        part: &mut [u64],
        figures: &mut [u64],
    )
        requires want_len { (length want.old ≡ get_or self.starts 4 0) × (length want.old ≤ length part.old) × (4 * length want.old ≤ length figures.old) }
        requires sums_value { (sums ≡ totals (standing_at self.starts) want.old) × (sum want.old < 2 ^ 62) × Below amounts sums }
        requires within { Within columns 3 × Room want.old figures.old }
        ensures want_after { want.new ≡ want.old ⊖ portion share (standing_at self.starts) amounts want.old }
        ensures raised { Raised (in_columns columns (standing_at self.starts) (portion share (standing_at self.starts) amounts want.old)) figures.old figures.new }
    {
        // by index: three arrays stand side by side, and a fourth gives each block's start and the next
        for s in 0..4 {
            let a = self.starts[s];
            share_block(
                amounts[s],
                sums[s],
                self.starts[s + 1] - a,
                columns[s],
                &mut want[a..],
                &mut part[a..],
                &mut figures[4 * a..],
            );
        }
    }
}
