// The transfer step (document 01, step 5 of 'One hour'): the table of four by four, and the public call.
#![tactic(auto)]

ghost use Rattle.std.specs.Prelude.{◌≡◌, ◌^◌, ◌≤◌, ◌<◌};
ghost use Rattle.lists.specs.Lists.{sum};
ghost use Rattle.lists.specs.Columns.{◌⊖◌, Below};
ghost use Rattle.sharing.specs.Sharing.{share};
ghost use Rattle.transfer.specs.Transfer.{transfer};
ghost use Rattle.transfer.specs.Laws.{row_sum, column_sum};
ghost use Rattle.refusals.specs.Numbers.{number};
ghost use Rattle.transfer.specs.Calls.{apart, transfer_number, transfer_call, transferred};

use lists::{MOST, at_most, sum_of};
use refusals::{Refusal, ask, told};
use sharing::Weights;
use std::array;

// A transfer table: four rows of four, giver by receiver. C reads it and the answer below as they stand.
#[repr(C)]
#[derive(Clone, Copy, Default)]
pub struct Table {
    pub rows: [[u64; 4]; 4],
}

// The answer of the transfer step as C reads it: the number, and the table beside it.
#[repr(C)]
#[derive(Clone, Copy)]
pub struct Transferred {
    pub number: u64,
    pub table: Table,
}

// t shared over four weights.
pub fn share_four(t: u64, weights: [u64; 4]) -> [u64; 4]
    requires { sum weights < 2 ^ 62 }
    ensures { result ≡ share t weights }
{
    let total = sum_of(&weights);
    let mut parts = [0u64; 4];
    let weights = Weights {
        figures: &weights,
        total,
    };
    sharing::share_into(t, weights, &mut parts);
    parts
}

// What four figures fall to.
pub fn less(left: [u64; 4], given: [u64; 4]) -> [u64; 4]
    requires { Below given left }
    ensures { result ≡ left ⊖ given }
{
    array::from_fn(|i| left[i] - given[i])
}

// Step 5: needs served 1 to 4, each shared over what the four still have left.
// What is left and the needs are no struct: C passes the two apart, and what binds them is asked at one place, in `transfer`.
pub fn transfer_step(left: [u64; 4], need: [u64; 4]) -> [[u64; 4]; 4]
    requires { (sum left < 2 ^ 62) × (sum need ≤ sum left) }
    ensures { result ≡ transfer share left need }
{
    let a = share_four(need[0], left);
    let left = less(left, a);
    let b = share_four(need[1], left);
    let left = less(left, b);
    let c = share_four(need[2], left);
    let left = less(left, c);
    let d = share_four(need[3], left);
    // the four are the table's columns
    [
        [a[0], b[0], c[0], d[0]],
        [a[1], b[1], c[1], d[1]],
        [a[2], b[2], c[2], d[2]],
        [a[3], b[3], c[3], d[3]],
    ]
}

// The sum of row g: what a submarket gives. Four places by hand, here and below: that an iterator's `sum` fits is asked of each run of it,
// and the check doesn't find that from these clauses.
pub fn row_sum(table: [[u64; 4]; 4], g: usize) -> u64
    requires { (g < 4) × (row_sum table g < 2 ^ 64) }
    ensures { result ≡ row_sum table g }
{
    table[g][0] + table[g][1] + table[g][2] + table[g][3]
}

// The sum of column r: what a submarket receives.
#[tactic(auto, using(crate::proofs::Served::columns))]
pub fn column_sum(table: [[u64; 4]; 4], r: usize) -> u64
    requires { (r < 4) × (column_sum table r < 2 ^ 64) }
    ensures { result ≡ column_sum table r }
{
    table[0][r] + table[1][r] + table[2][r] + table[3][r]
}

// Has no submarket both, something left and a need?
pub fn are_apart(left: [u64; 4], need: [u64; 4]) -> bool
    ensures { result ≡ apart left need }
{
    left.iter()
        .zip(&need)
        .all(|(left, need)| *left == 0 || *need == 0)
}

// The question of the transfer step.
#[tactic(auto, using(crate::proofs::Asked::hours), unfolding(crate::specs::Calls::transfer_number, lists::specs::Questions::first_no))]
pub fn ask_transfer(left: [u64; 4], need: [u64; 4]) -> Result<(), Refusal>
    ensures { number result ≡ transfer_number left need }
{
    ask(
        at_most(MOST, &left)
            && at_most(MOST, &need)
            && sum_of(&need) <= sum_of(&left)
            && are_apart(left, need),
        Refusal::Transfer,
    )
}

// The transfer step, with its question put.
#[tactic(auto, unfolding(crate::specs::Calls::transfer_call, lists::specs::Questions::outcome))]
pub fn transfer(left: [u64; 4], need: [u64; 4]) -> Result<Table, Refusal>
    ensures { transferred result ≡ transfer_call left need }
{
    ask_transfer(left, need)?;
    Ok(Table {
        rows: transfer_step(left, need),
    })
}

// Zeros beside the number of a refusal.
impl From<Result<Table, Refusal>> for Transferred {
    ghost from_gives = { λ answer given. given ≡ transferred answer };

    #[tactic(auto, unfolding(refusals::specs::Numbers::told))]
    fn from(answer: Result<Table, Refusal>) -> Transferred {
        let (number, table) = told(answer, Table::default());
        Transferred { number, table }
    }
}
