// Reads the data's words. A word is eight bytes as one number, the first byte highest.
ghost use Rattle.std.specs.Prelude.{◌≡◌, ◌+◌, ◌≤◌, length};
ghost use Rattle.crc.specs.Inner.Folding.{bytes_at};

// Returns the word at i. It is one load and a byte swap.
pub(crate) fn word(s: &[u8], i: usize) -> u64
    requires { i + 8 ≤ length s.now }
    ensures { result ≡ bytes_at s.now i 8 }
{
    u64::from_be_bytes(s[i..i + 8].try_into().unwrap())
}
