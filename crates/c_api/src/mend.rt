// The metric closure for C (document 02, 2.1: mending a measured table).
ghost use Rattle.std.specs.Prelude.{◌≡◌};
ghost use Rattle.c_records.specs.Record.{code};
ghost use Rattle.c_api.specs.Api.{mend_verdict, mend_table, mend_result};

use c_records::code::refusal_code;
use metric_closure::close;

// Lowers each distance of n rows of n to the least sum over any chain of tides: how many pairs were lowered goes into `res`.
pub fn tides_mend(table: &mut [u32], n: usize, res: &mut [u32]) -> u32
    ensures code { result ≡ code (mend_verdict n table.old res.old) }
    ensures table { table.new ≡ mend_table n table.old res.old }
    ensures res { res.new ≡ mend_result n table.old res.old }
{
    if res.len() < 1 {
        return 1;
    }
    match close(table, n) {
        Err(why) => refusal_code(why),
        Ok(lowered) => {
            res[0] = lowered as u32;
            0
        }
    }
}
