// Prints the guards of blocks that the papers give.
ghost use Rattle.std.specs.Prelude.{◌≡◌, ◌≤◌, length};

use guard::{CHECKSUM, CRC};
use std::io;

// The size of SBC-3's blocks, the longest ones here.
const BLOCK_SIZE: usize = 32;

// The first of two parts has an odd number of bytes, so that a part may end within a checksum's word.
const SBC3_FIRST_PART: usize = 13;

const RFC1071_FIRST_PART: usize = 3;

// A block that a paper gives, its guard type, and what is printed before its guard.
#[derive(Drop)]
struct Vector<'a> {
    label: &'a str,
    guard_type: u32,
    block: &'a [u8],
    ghost short: { length block.now ≤ 32 },
}

impl<'a> Vector<'a> {
    fn new(label: &'a str, guard_type: u32, block: &'a [u8]) -> Self
        requires { length block.now ≤ 32 }
        ensures { result.block.now ≡ block.now }
    {
        Vector {
            label,
            guard_type,
            block,
        }
    }

    // Returns the guard of the block.
    fn guard(&self, seed: u16) -> u16 {
        let whole = guard::advance(self.guard_type, guard::start(seed), self.block);
        guard::value(self.guard_type, whole)
    }

    // Returns the guard of the block that comes in two parts, the first of `first` bytes.
    fn guard_in_two_parts(&self, seed: u16, first: usize) -> u16
        requires { first ≤ length self.now.block.now }
    {
        let (front, back) = self.block.split_at(first);
        let part = guard::advance(self.guard_type, guard::start(seed), front);
        guard::value(self.guard_type, guard::advance(self.guard_type, part, back))
    }

    // Prints the guard with seed 0 of the whole block and that of the same block in two parts.
    fn print_both(&self, rt: &impl Print, first: usize) -> io::Result<()>
        requires { first ≤ length self.now.block.now }
    {
        let label = self.label;
        println!(rt;
            "{label} {:04x}, in two parts {:04x}",
            self.guard(0),
            self.guard_in_two_parts(0, first)
        )
    }

    // Prints the guard of the block with seed 0 and with seed 0xFFFF.
    fn print_each_seed(&self, rt: &impl Print) -> io::Result<()> {
        let label = self.label;
        println!(rt;
            "{label}, seed 0000: {:04x}, seed FFFF: {:04x}",
            self.guard(0x0000),
            self.guard(0xFFFF)
        )
    }
}

fn print_sbc3(rt: &impl Print, label: &str, block: &[u8; BLOCK_SIZE]) -> io::Result<()> {
    Vector::new(label, CRC, block).print_both(rt, SBC3_FIRST_PART)
}

pub(crate) fn print_crc(rt: &impl Print) -> io::Result<()> {
    print_sbc3(rt, "SBC-3, 32 bytes of 00: CRC", &[0x00; BLOCK_SIZE])?;
    print_sbc3(rt, "SBC-3, 32 bytes of FF: CRC", &[0xFF; BLOCK_SIZE])?;
    print_sbc3(
        rt,
        "SBC-3, 00 01 .. 1F: CRC",
        b"\x00\x01\x02\x03\x04\x05\x06\x07\x08\x09\x0A\x0B\x0C\x0D\x0E\x0F\x10\x11\x12\x13\x14\x15\x16\x17\x18\x19\x1A\x1B\x1C\x1D\x1E\x1F",
    )?;
    print_sbc3(
        rt,
        "SBC-3, FF FF and 30 bytes of 00: CRC",
        &two_ff_then_zeros(),
    )?;
    print_sbc3(
        rt,
        "SBC-3, FF FE .. E0: CRC",
        b"\xFF\xFE\xFD\xFC\xFB\xFA\xF9\xF8\xF7\xF6\xF5\xF4\xF3\xF2\xF1\xF0\xEF\xEE\xED\xEC\xEB\xEA\xE9\xE8\xE7\xE6\xE5\xE4\xE3\xE2\xE1\xE0",
    )
}

// Returns SBC-3's block of two bytes FF and 30 bytes 00.
fn two_ff_then_zeros() -> [u8; BLOCK_SIZE] {
    let mut block = [0x00; BLOCK_SIZE];
    block[..2].fill(0xFF);
    block
}

pub(crate) fn print_checksum(rt: &impl Print) -> io::Result<()> {
    let label = "RFC 1071, 00 01 F2 03 F4 F5 F6 F7: checksum";
    Vector::new(label, CHECKSUM, b"\x00\x01\xF2\x03\xF4\xF5\xF6\xF7").print_both(
        rt,
        RFC1071_FIRST_PART,
    )
}

pub(crate) fn print_seeds(rt: &impl Print) -> io::Result<()> {
    Vector::new("32 bytes of 00, CRC", CRC, &[0x00; BLOCK_SIZE]).print_each_seed(rt)?;
    Vector::new("32 bytes of 00, checksum", CHECKSUM, &[0x00; BLOCK_SIZE]).print_each_seed(rt)?;
    Vector::new("E, 8 bytes of 00, checksum", CHECKSUM, &[0x00; 8]).print_each_seed(rt)?;
    let label = "F, 00 01 00 02 00 03 00 04, checksum";
    Vector::new(label, CHECKSUM, b"\x00\x01\x00\x02\x00\x03\x00\x04").print_each_seed(rt)?;
    let label = "G, FF FF 00 01 00 00 00 00, checksum";
    let g = Vector::new(label, CHECKSUM, b"\xFF\xFF\x00\x01\x00\x00\x00\x00");
    println!(rt; "{label}, seed 0000: {:04x}", g.guard(0x0000))
}
