// wide::mul_div under a C name, for the benchmark in tests/bench alone: no part of the product.
#![tactic(auto)]

ghost use Rattle.std.specs.Prelude.{◌≡◌, ◌*◌, ◌/◌, ◌^◌, ◌≤◌, ◌<◌};

#[unsafe(no_mangle)]
pub extern "C" fn bench_mul_div(t: u64, c: u64, w: u64) -> u64
    requires { (c ≤ w) × (w < 2 ^ 62) }
    ensures { result ≡ t * c / w }
{
    wide::mul_div(t, c, w)
}
