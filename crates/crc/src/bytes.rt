// Enters bytes into the register by a table of remainders.
ghost use Rattle.std.specs.Prelude.{◌≡◌, ◌<◌, ◌^◌};
ghost use Rattle.crc.specs.Crc.{crc_byte, crc};
ghost use Rattle.crc.specs.Division.{followed};
ghost use Rattle.crc.specs.Inner.Folding.{crc_of};
ghost use Rattle.crc.specs.Inner.Tables.{Index};

use crate::table::REMAINDERS;

// Returns the register after the five bytes of n and then these bytes.
pub(crate) fn finish_five(n: u64, bytes: &[u8]) -> u16
    requires { n < 2 ^ 40 }
    ensures { result ≡ crc_of (followed 8 n bytes.now) }
{
    enter(enter_five(n), bytes)
}

// Returns the register after the five bytes of n.
fn enter_five(n: u64) -> u16
    requires { n < 2 ^ 40 }
    ensures { result ≡ crc_of n }
{
    enter(0, &n.to_be_bytes()[3..])
}

// Returns the register after these bytes.
pub(crate) fn enter(start: u16, bytes: &[u8]) -> u16
    ensures { result ≡ crc start bytes.now }
{
    bytes.iter().fold(start, |r, &byte| enter_byte(r, byte))
}

// Returns the register after one more byte: the high byte leaves it and is divided together with the byte that enters.
fn enter_byte(r: u16, byte: u8) -> u16
    ensures { result ≡ crc_byte r byte }
{
    (r << 8) ^ REMAINDERS[index(r, byte)]
}

// Returns the number of the table's entry for a register and a byte.
fn index(r: u16, byte: u8) -> usize
    ensures { Index r byte result }
{
    usize::from((r >> 8) ^ u16::from(byte))
}
