// Steps 4 to 6 of an hour, and step 7 again: what four submarkets have meets what the plants want.
#![tactic(auto)]

ghost use Rattle.std.specs.Prelude.{◌≡◌, ◌-◌, ◌*◌, ◌^◌, ◌≤◌, ◌<◌, length, get_or};
ghost use Rattle.lists.specs.Lists.{sum, most, Within};
ghost use Rattle.lists.specs.Columns.{◌⊕◌, ◌⊖◌, ◌⊓◌, Below, four, by_row, totals};
ghost use Rattle.sharing.specs.Sharing.{share};
ghost use Rattle.transfer.specs.Transfer.{serve};
ghost use Rattle.transfer.specs.Laws.{row_sum};
ghost use Rattle.blocks.specs.Portion.{portion};
ghost use Rattle.blocks.specs.Blocks.{standing_at, Raised, Room};
ghost use Rattle.cover.specs.Cover.{table, rest, supplied};
ghost use Rattle.cover.specs.Givers.{got_by, SentWithin};

use blocks::Blocks;
use std::array;

// Step 6, givers in order: what each sent is shared over the needs that are still open, which then fall.
fn serve_rows(
    blocks: Blocks,
    table: [[u64; 4]; 4],
    need: [u64; 4],
    want: &mut [u64],
    part: &mut [u64],
    figures: &mut [u64],
)
    requires want_len { (length want.old ≡ get_or blocks.starts 4 0) × (length want.old ≤ length part.old) × (4 * length want.old ≤ length figures.old) }
    requires need_value { (need ≡ totals (standing_at blocks.starts) want.old) × (sum want.old < 2 ^ 62) × SentWithin table need × Room want.old figures.old }
    ensures { Raised (got_by (serve (portion share (standing_at blocks.starts)) want.old table)) figures.old figures.new }
{
    let mut still = need;
    for (g, row) in table.iter().enumerate() {
        blocks.share(*row, still, [g; 4], want, part, figures);
        // In two steps: a call's array that is assigned at once is not covered.
        let fallen = transfer::less(still, *row);
        still = fallen;
    }
}

// Step 4: own cover of each submarket, the smaller of what it has and what it needs.
fn own_of(have: [u64; 4], need: [u64; 4]) -> [u64; 4]
    ensures { result ≡ have ⊓ need }
{
    array::from_fn(|s| have[s].min(need[s]))
}

// What is left to each submarket after what it sent. The four sums by hand: from `from_fn` each one's bound is owed in a closure at any place,
// and the check doesn't find it there.
fn rest_of(left: [u64; 4], table: [[u64; 4]; 4]) -> [u64; 4]
    requires { Below (four (λ s. row_sum table (s - 1))) left × (sum left < 2 ^ 62) }
    ensures { result ≡ left ⊖ four (λ s. row_sum table (s - 1)) }
{
    transfer::less(
        left,
        [
            transfer::row_sum(table, 0),
            transfer::row_sum(table, 1),
            transfer::row_sum(table, 2),
            transfer::row_sum(table, 3),
        ],
    )
}

// What steps 4 to 6 answer: the transfer table, and what is left to each submarket afterwards.
#[derive(Clone, Copy)]
pub struct Met {
    pub table: transfer::Table,
    pub rest: [u64; 4],
}

// Steps 4 to 6, and step 7 again. What the four submarkets have meets what the rows want: own cover, the transfer table, and what the rows
// get by it, added to each row's four figures. want and part are used up.
pub fn meet(
    blocks: Blocks,
    have: [u64; 4],
    want: &mut [u64],
    part: &mut [u64],
    figures: &mut [u64],
) -> Met
    requires want_len { (length want.old ≡ get_or blocks.starts 4 0) × (length want.old ≤ length part.old) × (4 * length want.old ≤ length figures.old) }
    requires have_bound { (sum have ≤ most) × (sum want.old ≤ sum have) × Within figures.old (2 ^ 62) }
    ensures rows_value { result.table.rows ≡ table share (standing_at blocks.starts) have want.old }
    ensures rest_value { result.rest ≡ rest share (standing_at blocks.starts) have want.old }
    ensures figures_after { figures.new ≡ figures.old ⊕ by_row 0 (four (supplied share (standing_at blocks.starts) have want.old)) }
{
    let need = blocks.sums(want);
    let own = own_of(have, need);
    blocks.share(own, need, [0, 1, 2, 3], want, part, figures);
    let left = transfer::less(have, own);
    let still = transfer::less(need, own);
    let rows = transfer::transfer_step(left, still);
    serve_rows(blocks, rows, still, want, part, figures);
    let rest = rest_of(left, rows);
    let table = transfer::Table { rows };
    Met { table, rest }
}
