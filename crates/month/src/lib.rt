// The month and its calls (document 01, 'Calls' and 'The questions'). Open and settle, which write the ledger, get its two lists apart: see `ledger::LedgerView`. Plants,
// profile and tariff are arguments of their own, as document 01 names them: a struct of them would be made for each call, and read apart in it.
#![tactic(auto)]

pub mod balancing;
pub mod close;
pub mod open;
pub mod settle;
pub mod stating;

// A month is blank, open or closed.
#[derive(Clone, Copy, PartialEq, Eq, Default)]
pub enum Stage {
    #[default]
    Blank,
    Open,
    Closed,
}

// The month: P plants, H periods, the tariff TEO and the period due. A call that is refused leaves it as it was.
#[derive(Clone, Copy, Default)]
pub struct Month {
    pub stage: Stage,
    pub plants: u64,
    pub periods: u64,
    pub tariff: u64,
    pub due: u64,
}

// What balance answers: the four column sums, the sum of nets and the sum of money.
#[derive(Clone, Copy, Default)]
pub struct Balance {
    pub columns: [u64; 4],
    pub net: i64,
    pub money: i64,
}
