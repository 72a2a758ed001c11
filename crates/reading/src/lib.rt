// Fills an array from a reader.
#![tactic(auto)]

ghost use Rattle.std.specs.Prelude.{◌≡◌, ◌+◌, ◌≤◌, ◌<◌, length, take, drop, IfOk};
ghost use Rattle.std.specs.Io.{ReadsAtMost};
ghost use Rattle.std.specs.Io.KnownBytes.{Consumes, IsAtEnd};

use std::io;
use std::io::Read;

// Reads until the bytes are full or the input ends. What was read stands at their front; the result is how much that is.
pub fn read_full<R: Read>(reader: &mut R, bytes: &mut [u8]) -> io::Result<usize>
    ensures bound { ReadsAtMost result bytes.new }
    ensures read { IfOk result (λ n. Consumes (R.remaining reader.old) (R.remaining reader.new) (take n bytes.new)) }
    ensures whole { IfOk result (λ n. n < length bytes.new → IsAtEnd (R.remaining reader.new)) }
{
    let mut done = 0;
    while done < bytes.len() {
        let n = read_after(reader, bytes, done)?;
        if n == 0 {
            break;
        }
        done += n;
    }
    Ok(done)
}

// One read into the bytes from the place `done` on.
fn read_after<R: Read>(reader: &mut R, bytes: &mut [u8], done: usize) -> io::Result<usize>
    requires { done < length bytes.old }
    ensures front { take done bytes.new ≡ take done bytes.old }
    ensures length { length bytes.new ≡ length bytes.old }
    ensures fits { IfOk result (λ n. done + n ≤ length bytes.new) }
    ensures read { IfOk result (λ n. Consumes (R.remaining reader.old) (R.remaining reader.new) (take n (drop done bytes.new))) }
    ensures end { IfOk result (λ n. n ≡ 0 → IsAtEnd (R.remaining reader.new)) }
{
    reader.read(&mut bytes[done..])
}
