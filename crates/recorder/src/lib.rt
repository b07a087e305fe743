// The C interface: every public call under one prefix, with the contract of the call that it hands on, and with its answer in C's form. include/iolwarch.h
// declares these functions for C.
#![tactic(auto)]

ghost use Rattle.std.specs.Prelude.{◌≡◌};
ghost use Rattle.sharing.specs.Calls.{Shared, sharing_call};
ghost use Rattle.transfer.specs.Calls.{transfer_call};

use refusals::number_of;
use transfer::Transferred;

pub mod files;
pub mod months;
pub mod reading;

// sharing::share.
#[unsafe(no_mangle)]
pub extern "C" fn iolwarch_share(total: u64, weights: &[u64], parts: &mut [u64]) -> u64
    ensures { ◌≡◌ {A = Shared} (record { number = result; parts = parts.new }) (sharing_call total weights.now parts.old) }
{
    number_of(sharing::share(total, weights, parts))
}

// One figure for each of submarkets 1 to 4. C passes no array by value.
#[repr(C)]
#[derive(Clone, Copy)]
pub struct BySubmarket {
    pub kwh: [u64; 4],
}

// transfer::transfer.
#[unsafe(no_mangle)]
pub extern "C" fn iolwarch_transfer(left: BySubmarket, need: BySubmarket) -> Transferred
    ensures { result ≡ transfer_call left.kwh need.kwh }
{
    let left = left.kwh;
    let need = need.kwh;
    Transferred::from(transfer::transfer(left, need))
}
