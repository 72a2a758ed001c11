// Numbers from a fixed generator.
#![tactic(auto)]

ghost use Rattle.std.specs.Prelude.{◌+◌, ◌-◌, ◌<◌, ◌≤◌};

// The next state of a multiplicative generator modulo the prime 2^31 - 1.
pub fn next(seed: u64) -> u64
    ensures { result < 2147483647 }
{
    seed % 2147483647 * 48271 % 2147483647
}

// A number below k, which is at most 256.
pub fn draw(seed: u64, k: u64) -> u8
    requires k_nonzero { 0 < k }
    requires k_bound { k ≤ 256 }
    ensures { result < k }
{
    (seed / 1024 % k) as u8
}

// A number from low to high; low where high is below it.
pub fn between(seed: u64, low: u8, high: u8) -> u8
    ensures { result ≤ low + (high - low) }
{
    if high < low {
        return low;
    }
    low + draw(seed, u64::from(high - low) + 1)
}
