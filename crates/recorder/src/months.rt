// The month's calls for C.
ghost use Rattle.std.specs.Prelude.{◌≡◌};
ghost use Rattle.kept_month.specs.Months.{OpenKeptEnd, open_kept, SettleKeptEnd, settle_kept, close_kept, balance_kept, StatementKeptEnd, statement_kept, SizeKept};

use kept_month::{
    KeptBalance, KeptEnd, KeptMonth, KeptSettle, KeptSized, KeptStated, ended_kept, settled_kept,
    sized_kept, stated_kept,
};
use ledger::LedgerView;
use month::Month;
use plants::Plant;

// Month::open.
#[unsafe(no_mangle)]
pub extern "C" fn iolwarch_open(
    month: KeptMonth,
    plants: &[Plant],
    profile: &[u64],
    tariff: u64,
    allotted: &mut [u64],
    accounts: &mut [i64],
) -> KeptEnd
    ensures { ◌≡◌ {A = OpenKeptEnd} (record { answer = result; ledger = record { allotted = allotted.new; accounts = accounts.new } }) (open_kept month plants.now profile.now tariff (record { allotted = allotted.old; accounts = accounts.old })) }
{
    let mut after = Month::from(month);
    let answer = after.open(plants, profile, tariff, allotted, accounts);
    ended_kept(month, after, answer)
}

// Month::settle.
#[unsafe(no_mangle)]
pub extern "C" fn iolwarch_settle(
    month: KeptMonth,
    plants: &[Plant],
    profile: &[u64],
    metered: &[u64],
    allotment: &mut [u64],
    allotted: &mut [u64],
    accounts: &mut [i64],
) -> KeptSettle
    ensures { ◌≡◌ {A = SettleKeptEnd} (record { answer = result; allotment = allotment.new; ledger = record { allotted = allotted.new; accounts = accounts.new } }) (settle_kept month plants.now profile.now metered.now allotment.old (record { allotted = allotted.old; accounts = accounts.old })) }
{
    let mut after = Month::from(month);
    let answer = after.settle(plants, profile, metered, allotment, allotted, accounts);
    settled_kept(month, after, answer)
}

// kept_month::close_kept.
#[unsafe(no_mangle)]
pub extern "C" fn iolwarch_close(month: KeptMonth) -> KeptEnd
    ensures { result ≡ close_kept month }
{
    kept_month::close_kept(month)
}

// kept_month::balance_kept.
#[unsafe(no_mangle)]
pub extern "C" fn iolwarch_balance(
    month: KeptMonth,
    allotted: &[u64],
    accounts: &[i64],
) -> KeptBalance
    ensures { result ≡ balance_kept month (record { allotted = allotted.now; accounts = accounts.now }) }
{
    kept_month::balance_kept(month, LedgerView { allotted, accounts })
}

// Month::statement.
#[unsafe(no_mangle)]
pub extern "C" fn iolwarch_statement(
    month: KeptMonth,
    plants: &[Plant],
    allotted: &[u64],
    accounts: &[i64],
    bytes: &mut [u8],
) -> KeptStated
    ensures { ◌≡◌ {A = StatementKeptEnd} (record { answer = result; bytes = bytes.new }) (statement_kept month plants.now (record { allotted = allotted.now; accounts = accounts.now }) bytes.old) }
{
    let ledger = LedgerView { allotted, accounts };
    let answer = Month::from(month).statement(plants, ledger, bytes);
    stated_kept(month, answer)
}

// Month::statement_size.
#[unsafe(no_mangle)]
pub extern "C" fn iolwarch_statement_size(
    month: KeptMonth,
    plants: &[Plant],
    allotted: &[u64],
    accounts: &[i64],
) -> KeptSized
    ensures { SizeKept month plants.now (record { allotted = allotted.now; accounts = accounts.now }) result }
{
    let ledger = LedgerView { allotted, accounts };
    let answer = Month::from(month).statement_size(plants, ledger);
    sized_kept(month, answer)
}
