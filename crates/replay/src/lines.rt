// Reads the lines of a case file, each a letter and hexadecimal numbers.
ghost use Rattle.std.specs.Prelude.{◌≡◌, ℕ, ◌^◌, ◌%◌, ◌<◌, ◌≤◌};

// Returns the value of a hexadecimal digit. Any other byte gets some value below 16 too.
fn digit_value(digit: u8) -> u64
    ensures { result < 16 }
{
    let n = u64::from(digit);
    if digit <= b'9' { n % 16 } else { (n + 9) % 16 }
}

// The fields of a line that are not yet read. One space ends a field.
#[derive(Drop)]
pub(crate) struct Fields<'a> {
    rest: &'a [u8],
}

impl<'a> Fields<'a> {
    // Returns the fields after the first one, which begins with the line's letter.
    pub(crate) fn after_letter(line: &'a [u8]) -> Self {
        let mut fields = Fields { rest: line };
        fields.next_field();
        fields
    }

    // Takes the next field, or an empty one if the line has no more.
    fn next_field(&mut self) -> &'a [u8] {
        let rest = self.rest;
        let end = rest
            .iter()
            .position(|byte| *byte == b' ')
            .unwrap_or(rest.len());
        self.rest = rest.get(end + 1..).unwrap_or(&[]);
        &rest[..end]
    }

    // Takes the next field as a number, or 0 if the line has no more. Of a longer number the last 16 digits count.
    pub(crate) fn number(&mut self) -> u64 {
        self.next_field()
            .iter()
            .fold(0, |n, digit| (n << 4) | digit_value(*digit))
    }

    // Takes the next field as a length, or the limit if the number is greater.
    pub(crate) fn length(&mut self, limit: usize) -> usize
        ensures { result ≤ limit }
    {
        self.number().min(limit as u64) as usize
    }

    // Takes the low bits of the next number, as many as the type has.
    pub(crate) fn low<T: LowBits>(&mut self) -> T {
        T::low_bits(self.number())
    }
}

// The types that a number of a line may be cut to: what number a value is, and how many bits the type has.
pub(crate) trait LowBits {
    ghost number: { Self → ℕ };

    ghost bits: { ℕ };

    fn low_bits(n: u64) -> Self
        ensures { number result ≡ n % 2 ^ bits };
}

impl LowBits for u32 {
    ghost number = { λ n. n };

    ghost bits = { 32 };

    fn low_bits(n: u64) -> u32 {
        (n & 0xFFFF_FFFF) as u32
    }
}

impl LowBits for u16 {
    ghost number = { λ n. n };

    ghost bits = { 16 };

    fn low_bits(n: u64) -> u16 {
        (n & 0xFFFF) as u16
    }
}

impl LowBits for u8 {
    ghost number = { λ n. n };

    ghost bits = { 8 };

    fn low_bits(n: u64) -> u8 {
        (n & 0xFF) as u8
    }
}
