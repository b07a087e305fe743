// The ledger (document 01, 'Plants, profile, ledger'): bounds, posting, columns and their sums.
#![tactic(auto)]

ghost use Rattle.std.specs.Prelude.{◌≡◌, ◌-◌, ◌*◌, ◌^◌, ◌≤◌, ◌<◌, length};
ghost use Rattle.lists.specs.Lists.{Within, at_most, every, sum, sumℤ};
ghost use Rattle.lists.specs.Columns.{◌⊕◌, ◌⊕ℤ◌, column, four};
ghost use Rattle.signed.specs.Figures.{accounts_of, at_rate, is_within};
ghost use Rattle.ledger.specs.Ledger.{accounts_width, added, allotted_width, in_bounds, kwh_bound, viewed};
ghost use Rattle.ledger.specs.Posting.{Addable, Payable, Postable, Summable, viewed_hour};

// Figures a plant: its allotted kWh in submarkets 1 to 4; its net and its money.
pub const ALLOTTED: usize = 4;

pub const ACCOUNTS: usize = 2;

// The net stands before the money.
pub const NET: usize = 0;

pub const MONEY: usize = 1;

// The ledger, lent to be read: row by row, the figures of ALLOTTED and of ACCOUNTS. What is written is lent as two lists: of parts of the lists in a
// struct of two `&mut`, which the month file would lend, nothing is known after the call (tried).
#[derive(Clone, Copy)]
pub struct LedgerView<'a> {
    pub allotted: &'a [u64],
    pub accounts: &'a [i64],
}

// What an hour adds: each row's allotted kWh and its net, which is paid at the tariff.
#[derive(Clone, Copy)]
pub struct HourView<'a> {
    pub allotment: &'a [u64],
    pub nets: &'a [i64],
    pub tariff: u64,
}

// No figure passes these: allotted and net kWh, and money in thousandths of a centavo.
const KWH_BOUND: u64 = 1_488_000_000_000;

const MONEY_BOUND: u64 = 14_880_000_000_000_000;

// Is every figure of the column that starts at `start` within a bound of zero? `start` is a place in a row, NET or MONEY: a struct of it and the list would
// be made for each call. By place, here and in the sums below: a chain of `skip` and `step_by`, measured, takes 1.6 times as long, and a `for` over the
// count of a column's figures 1.5 times where there is one row.
fn column_within(bound: u64, start: usize, accounts: &[i64]) -> bool
    ensures { result ≡ every (is_within bound) (column accounts_width start accounts.now) }
{
    let mut i = start;
    while let Some(figure) = accounts.get(i) {
        if !signed::is_within(bound, *figure) {
            return false;
        }
        i += ACCOUNTS;
    }
    true
}

// Is every figure at most a bound, with more added to each?
fn at_most_after(bound: u64, figures: &[u64], more: &[u64]) -> bool
    requires { Addable figures.now more.now }
    ensures { result ≡ at_most bound (figures.now ⊕ more.now) }
{
    figures
        .iter()
        .zip(more)
        .all(|(figure, added)| *figure + *added <= bound)
}

// Adds a list to another, figure by figure. By index, here and below: of what a loop over a zip of `iter_mut` wrote, nothing is known after it.
fn add_figures(figures: &mut [u64], more: &[u64])
    requires { Addable figures.old more.now }
    ensures { figures.new ≡ figures.old ⊕ more.now }
{
    for (i, added) in more.iter().enumerate() {
        figures[i] += *added;
    }
}

// Is every figure of the column that starts at `start` within a bound of zero, with each row's net added at a rate?
// Beside column_within: no list holds these sums, and a function over any iterator would need laws of what it gives, for one line of code.
fn column_within_after(bound: u64, start: usize, accounts: &[i64], nets: &[i64], rate: u64) -> bool
    requires { (start < accounts_width) × Payable accounts.now nets.now rate }
    ensures { result ≡ every (is_within bound) (column accounts_width start accounts.now ⊕ℤ at_rate rate nets.now) }
{
    for (i, net) in nets.iter().enumerate() {
        let more = signed::times(*net, rate);
        let figure = signed::plus(accounts[ACCOUNTS * i + start], more);
        if !signed::is_within(bound, figure) {
            return false;
        }
    }
    true
}

// Adds each row's net, and its money at the tariff, to the row's two accounts.
fn add_accounts(accounts: &mut [i64], nets: &[i64], tariff: u64)
    requires { Payable accounts.old nets.now tariff }
    ensures { accounts.new ≡ accounts.old ⊕ℤ accounts_of tariff nets.now }
{
    for (i, net) in nets.iter().enumerate() {
        let money = signed::times(*net, tariff);
        signed::add_at(accounts, ACCOUNTS * i + NET, *net);
        signed::add_at(accounts, ACCOUNTS * i + MONEY, money);
    }
}

impl LedgerView<'_> {
    // Is every figure inside its bound? (19)
    #[tactic(auto, unfolding(crate::specs::Ledger::in_bounds))]
    pub fn in_bounds(self) -> bool
        ensures { result ≡ in_bounds (viewed self.entry) }
    {
        lists::at_most(KWH_BOUND, self.allotted)
            && column_within(KWH_BOUND, NET, self.accounts)
            && column_within(MONEY_BOUND, MONEY, self.accounts)
    }

    // Is every figure inside its bound once the hour is added? (19; nothing is written)
    #[tactic(auto, using(crate::proofs::Posting::bounds_after))]
    pub fn in_bounds_after(self, hour: HourView<'_>) -> bool
        requires { Postable (viewed self) hour.allotment.now hour.nets.now hour.tariff }
        ensures { result ≡ in_bounds (added (viewed self.entry) (viewed_hour hour.entry)) }
    {
        at_most_after(KWH_BOUND, self.allotted, hour.allotment)
            && column_within_after(KWH_BOUND, NET, self.accounts, hour.nets, 1)
            && column_within_after(MONEY_BOUND, MONEY, self.accounts, hour.nets, hour.tariff)
    }
}

// Adds an hour to the ledger.
pub fn post(allotted: &mut [u64], accounts: &mut [i64], hour: HourView<'_>)
    requires { Postable (record { allotted = allotted.old; accounts = accounts.old }) hour.allotment.now hour.nets.now hour.tariff }
    ensures allotted { allotted.new ≡ (added (record { allotted = allotted.old; accounts = accounts.old }) (viewed_hour hour.entry)).allotted }
    ensures accounts { accounts.new ≡ (added (record { allotted = allotted.old; accounts = accounts.old }) (viewed_hour hour.entry)).accounts }
{
    add_figures(allotted, hour.allotment);
    add_accounts(accounts, hour.nets, hour.tariff);
}

// The sum of the column that starts at `start`, of a list of `width` figures a row.
fn column_sum(width: usize, start: usize, figures: &[u64]) -> u64
    requires { (0 < width) × (width ≤ 2 ^ 16) × (length figures.now ≤ 2 ^ 16) × Within figures.now kwh_bound }
    ensures { result ≡ sum (column width start figures.now) }
{
    let mut total: u64 = 0;
    let mut i = start;
    while let Some(figure) = figures.get(i) {
        total += *figure;
        i += width;
    }
    total
}

// The four column sums. (By hand: in a closure, as from `array::from_fn`, what `column_sum` asks would be owed at any place.)
pub fn column_sums(allotted: &[u64]) -> [u64; 4]
    requires { (length allotted.now ≤ allotted_width * 512) × Within allotted.now kwh_bound }
    ensures { result ≡ four (λ s. sum (column allotted_width (s - 1) allotted.now)) }
{
    [
        column_sum(ALLOTTED, 0, allotted),
        column_sum(ALLOTTED, 1, allotted),
        column_sum(ALLOTTED, 2, allotted),
        column_sum(ALLOTTED, 3, allotted),
    ]
}

// The sum of the accounts' column that starts at `start`.
pub fn account_sum(start: usize, accounts: &[i64]) -> i64
    requires { Summable accounts.now }
    ensures { result ≡ sumℤ (column accounts_width start accounts.now) }
{
    let mut total: i64 = 0;
    let mut i = start;
    while let Some(figure) = accounts.get(i) {
        total = signed::plus(total, *figure);
        i += ACCOUNTS;
    }
    total
}
