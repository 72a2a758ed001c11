// The number that a call answers.
ghost use Rattle.std.specs.Prelude.{◌≡◌};
ghost use Rattle.study.specs.Refusals.{seven, numbered, refused};
ghost use Rattle.c_records.specs.Record.{code};
ghost use Rattle.c_records.specs.Records.{Narrow};

use study::Refusal;
use study::refusals::Number;

// The number 7 with its pair.
fn pair_code(i: usize, j: usize) -> u32
    requires { Narrow (refused (seven i j)) }
    ensures { result ≡ code (refused (seven i j)) }
{
    (7 + 256 * i + 65536 * j) as u32
}

// The number of a refusal; for 7 its pair besides.
pub fn refusal_code(why: Refusal) -> u32
    requires { Narrow (refused (numbered why)) }
    ensures { result ≡ code (refused (numbered why)) }
{
    match Number::from(why) {
        Number::Alone(n) => n,
        Number::Seven(i, j) => pair_code(i, j),
    }
}
