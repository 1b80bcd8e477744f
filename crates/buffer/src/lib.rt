// Writing bytes into a lent buffer, one part after the other.
//
// A `Writer` has the buffer and the place of the next byte. Each `put` method writes from there on, and moves the place
// to the one after what it wrote. What stood behind it stays, and what does not fit is left out. Each takes any buffer
// and any place, writes what the definitions in specs/ give, and has no `requires`. `digit_count` tells before how many
// digits `put_field` writes of a number.
#![tactic(auto)]

ghost use Rattle.std.specs.Prelude.{◌≡◌, ◌∷◌, []};
ghost use Rattle.fields.specs.Decimal.{digit_count, field};
ghost use Rattle.buffer.specs.Puts.{Puts};

// Where the next byte of a lent buffer goes.
#[derive(Drop)]
pub struct Writer<'a> {
    pub buffer: &'a mut [u8],
    pub at: usize,
}

impl Writer<'_> {
    // Writes one byte.
    pub fn put_byte(&mut self, byte: u8)
        ensures written { Puts self.old self.new (byte ∷ []) }
    {
        if self.at < self.buffer.len() {
            self.buffer[self.at] = byte;
            self.at += 1;
        }
    }

    // Writes all bytes of a part.
    pub fn put(&mut self, part: &[u8])
        ensures written { Puts self.old self.new part.now }
    {
        for &byte in part {
            self.put_byte(byte);
        }
    }

    // Writes a number in decimal digits, and the byte that ends its field.
    pub fn put_field(&mut self, number: usize, end: u8)
        ensures written { Puts self.old self.new (field number end) }
    {
        let mut digits = [0u8; 20];
        let k = io::decimal(number as u64, &mut digits);
        self.put(&digits[..k]);
        self.put_byte(end);
    }
}

// How many decimal digits a number has.
pub fn digit_count(number: usize) -> usize
    ensures counted { result ≡ digit_count number }
{
    let mut spelled = [0u8; 20];
    io::decimal(number as u64, &mut spelled)
}
