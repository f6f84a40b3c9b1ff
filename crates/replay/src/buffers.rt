// Fills memory and wire, and digests them.
use crate::lines::Fields;

// A pattern is a sequence of numbers: each is the last one times a factor plus an increment, modulo 2^32.
const FACTOR: u32 = 1103515245;

const INCREMENT: u32 = 12345;

const DIGEST_FACTOR: u64 = 257;

// The largest prime number below 2^32.
const DIGEST_MODULUS: u64 = 4294967291;

// Fills a buffer with the pattern of this seed. Each byte is bits 16 to 23 of the next number.
pub(crate) fn fill_pattern(buffer: &mut [u8], seed: u32) {
    let mut x = seed;
    for byte in buffer {
        x = x.wrapping_mul(FACTOR).wrapping_add(INCREMENT);
        *byte = ((x >> 16) & 0xFF) as u8;
    }
}

// Sets the bytes of a buffer that a line names to the value that it names.
pub(crate) fn change_bytes(buffer: &mut [u8], fields: &mut Fields<'_>) {
    let from = fields.length(buffer.len());
    let n = fields.length(buffer.len() - from);
    let value = fields.low();
    buffer[from..from + n].fill(value);
}

// Returns the digest of a buffer, a number that differs for most different contents.
pub(crate) fn digest(buffer: &[u8]) -> u32 {
    buffer.iter().fold(1, |sum, byte| {
        ((u64::from(sum) * DIGEST_FACTOR + u64::from(*byte)) % DIGEST_MODULUS) as u32
    })
}
