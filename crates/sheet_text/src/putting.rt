// Text is put into lent memory from a place on; the answer is the place after it. Place and memory are no struct: one that holds the lent slice
// would need a clause in each function, and in each caller, that it still holds the same slice.
ghost use Rattle.std.specs.Prelude.{[], ◌∷◌, ◌+◌, ◌≤◌, ◌<◌, length};
ghost use Rattle.study.specs.Refusals.{numbered};
ghost use Rattle.sheet_text.specs.Text.{decimal, refused_text};
ghost use Rattle.sheet_text.specs.Lines.{field, named};
ghost use Rattle.sheet_text.specs.Putting.{PutText};

use study::Refusal;

// One byte.
pub fn put_byte(out: &mut [u8], at: usize, byte: u8) -> usize
    requires { at < length out.old }
    ensures { PutText out.old at (byte ∷ []) result out.new }
{
    out[at] = byte;
    at + 1
}

// A text.
pub fn put_bytes(out: &mut [u8], at: usize, text: &[u8]) -> usize
    requires { at + length text.now ≤ length out.old }
    ensures { PutText out.old at text.now result out.new }
{
    let end = at + text.len();
    out[at..end].copy_from_slice(text);
    end
}

// A number in decimal: the digits of its tenth part, then its last.
pub fn put_number(out: &mut [u8], at: usize, x: u32) -> usize
    requires { at + length (decimal x) ≤ length out.old }
    ensures { PutText out.old at (decimal x) result out.new }
{
    if x < 10 {
        return put_byte(out, at, b'0' + x as u8);
    }
    let last = put_number(out, at, x / 10);
    put_byte(out, last, b'0' + (x % 10) as u8)
}

// A number and the byte after it.
pub fn put_field(out: &mut [u8], at: usize, x: u32, mark: u8) -> usize
    requires { at + length (field x mark) ≤ length out.old }
    ensures { PutText out.old at (field x mark) result out.new }
{
    let end = put_number(out, at, x);
    put_byte(out, end, mark)
}

// A field with words before it.
pub fn put_named(out: &mut [u8], at: usize, name: &[u8], x: u32, mark: u8) -> usize
    requires { at + length (named name.now x mark) ≤ length out.old }
    ensures { PutText out.old at (named name.now x mark) result out.new }
{
    let end = put_bytes(out, at, name);
    put_field(out, end, x, mark)
}

// The line of a refusal.
pub fn put_refusal(out: &mut [u8], at: usize, why: Refusal) -> usize
    requires { at + 19 ≤ length out.old }
    ensures { (result ≤ at + 19) × PutText out.old at (refused_text (numbered why)) result out.new }
{
    put_named(out, at, b"refused ", why.number(), b'\n')
}
