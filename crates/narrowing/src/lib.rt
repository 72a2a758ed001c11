// Numbers for calls that take bytes.
#![tactic(auto)]

ghost use Rattle.std.specs.Prelude.{◌≡◌};
ghost use Rattle.narrowing.specs.Narrowing.{narrowed};

// A number as a byte. No call takes 255, which stands for every greater number.
pub fn narrow(x: u32) -> u8
    ensures { result ≡ narrowed x }
{
    u8::try_from(x).unwrap_or(255)
}
