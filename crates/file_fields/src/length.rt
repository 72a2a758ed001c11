// The length of a file.
ghost use Rattle.std.specs.Prelude.{◌≡◌, ◌+◌, ◌/◌, ◌≤◌, eqb};
ghost use Rattle.study.specs.Limits.{max_tides, max_settings, max_users};
ghost use Rattle.file_format.specs.File.{bit_length};

// The bytes of the longest file.
const MAX_FILE: usize = 17914;

// The bits of a file of n tides without the fill bits; tide n would begin there.
pub fn bit_length(counts: usize, k: usize, n: usize) -> usize
    requires { (counts ≤ max_users) × (k ≤ max_settings) × (n ≤ max_tides) }
    ensures { (result ≡ bit_length counts k n) × (result ≤ 143306) }
{
    26 + 16 * counts + 7 * k + 10 * (n * n) - 7 * n
}

// Whether so many bytes hold so many bits, and less than a byte more.
pub fn has_length(bytes: usize, bits: usize) -> bool
    requires { bits ≤ 143306 }
    ensures { result ≡ eqb bytes ((bits + 7) / 8) }
{
    bytes <= MAX_FILE && bits <= 8 * bytes && 8 * bytes < bits + 8
}
