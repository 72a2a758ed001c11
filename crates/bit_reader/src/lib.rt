// The fields of a file, one after the other. A place, a byte and a bit in it, is carried from field to field, and no position is divided.
// `field_at` reads one field, and `ends_in_zeros` looks at the bits past the last one; no other function knows how bits lie in bytes. `BitReader`
// holds the bytes and a place; its `take` is a thin call onto `field_at`, and moves on past the field.
#![tactic(auto)]

ghost use Rattle.std.specs.Prelude.{◌≡◌, ℕ, ◌+◌, ◌-◌, ◌*◌, ◌≤◌, ◌<◌, leb, eqb, get_or, length};
ghost use Rattle.file_format.specs.Bits.{bits_at};
ghost use Rattle.bit_reader.specs.Fields.{BitsRead, Askable, word_at, Stepped};

// Where the next bit stands: in which byte, and as which of its bits, the most significant being bit 0.
#[derive(Clone, Copy)]
pub struct Place {
    pub byte: usize,
    pub bit: usize,
}

// A byte; 0 past the end.
fn byte_at(bytes: &[u8], i: usize) -> u8
    ensures { result ≡ get_or bytes.now i 0 }
{
    bytes.get(i).copied().unwrap_or(0)
}

// The four bytes from a byte on as one number, the first one highest; those past the end are 0.
fn word_at(bytes: &[u8], i: usize) -> u32
    requires { i < length bytes.now }
    ensures { result ≡ word_at bytes.now i }
{
    match bytes[i..].first_chunk() {
        Some(four) => u32::from_be_bytes(*four),
        None => u32::from_be_bytes([
            bytes[i],
            byte_at(bytes, i + 1),
            byte_at(bytes, i + 2),
            byte_at(bytes, i + 3),
        ]),
    }
}

// The place `width` bits on: every eight bits are carried into the byte. A quotient would say it in one step, but no position is divided.
fn past(place: Place, width: usize) -> Place
    requires { Askable place width }
    ensures { (n : ℕ) → BitsRead place n → BitsRead result (n + width) }
{
    let mut byte = place.byte;
    let mut bit = place.bit + width;
    while 8 <= bit {
        byte += 1;
        bit -= 8;
    }
    Place { byte, bit }
}

// Whether the bytes go as far as a place.
fn long_enough(bytes: &[u8], place: Place) -> bool
    ensures { (n : ℕ) → BitsRead place n → result ≡ leb n (8 * length bytes.now) }
{
    if place.bit == 0 {
        place.byte <= bytes.len()
    } else {
        place.byte < bytes.len()
    }
}

// The field of `width` bits at a place, most significant bit first, cut out of the four bytes that it can stand in; nothing where the bytes stop
// before its end. Beside it the place past the field, whether the bytes go so far or not.
pub fn field_at(bytes: &[u8], place: Place, width: usize) -> (Option<u32>, Place)
    requires { Askable place width }
    ensures { (n : ℕ) → BitsRead place n → Stepped bytes.now n width result.0 result.1 }
{
    let next = past(place, width);
    if !long_enough(bytes, next) {
        return (None, next);
    }
    let field = (word_at(bytes, place.byte) << place.bit) >> (32 - width);
    (Some(field), next)
}

// Whether the last `width` bits, fewer than 8, are zero. They are no field, and no place is carried to them (document 02, 2.5): they are cut
// out of the last byte.
pub fn ends_in_zeros(bytes: &[u8], width: usize) -> bool
    requires { (width < 8) × (width ≤ 8 * length bytes.now) }
    ensures { result ≡ eqb (bits_at bytes.now (8 * length bytes.now - width) width) 0 }
{
    if width == 0 {
        return true;
    }
    let last = u32::from(bytes[bytes.len() - 1]);
    let rest = 32 - width;
    (last << rest) >> rest == 0
}

// Bytes and the place of the next bit in them.
#[derive(Drop)]
pub struct BitReader<'a> {
    pub bytes: &'a [u8],
    pub place: Place,
}

impl<'a> BitReader<'a> {
    // A reader at the first bit.
    pub fn new(bytes: &'a [u8]) -> BitReader<'a>
        ensures bytes { result.bytes ≡ bytes.entry }
        ensures place { BitsRead result.place 0 }
    {
        BitReader {
            bytes,
            place: Place { byte: 0, bit: 0 },
        }
    }

    // The field at the reader's place. The reader moves past it, or past the end: from then on it has no field any more.
    pub fn take(&mut self, width: usize) -> Option<u32>
        requires { Askable self.old.place width }
        ensures same { self.new.bytes ≡ self.old.bytes }
        ensures step { (n : ℕ) → BitsRead self.old.place n → Stepped self.old.bytes.now n width result self.new.place }
    {
        let (field, next) = field_at(self.bytes, self.place, width);
        self.place = next;
        field
    }
}
