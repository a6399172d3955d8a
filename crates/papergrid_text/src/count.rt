//! How often a byte stands in a text, many bytes at a time. Source: the crate `bytecount`, in whose
//! place this stands.

ghost use Rattle.std.specs.Prelude.{◌≡◌, ◌==◌, ◌+◌, ◌≤◌, count_by, length};
ghost use Rattle.std.specs.Simd.Lanes.{chunk};

use std::simd::prelude::*;

// Bytes that are tested at once.
const LANES: usize = 32;

/// How many of the bytes are the one given.
pub fn count_byte(bytes: &[u8], byte: u8) -> usize
    ensures { result ≡ count_by (λ b. b == byte) bytes.now }
{
    let mut count = 0usize;
    let mut at = 0usize;
    while LANES <= bytes.len() - at {
        count += count_in_lanes(bytes, at, byte);
        at += LANES;
    }
    count + count_in_rest(&bytes[at..], byte)
}

// The same of as many bytes as there are lanes, from a place on.
fn count_in_lanes(bytes: &[u8], from: usize, byte: u8) -> usize
    requires { from + LANES ≤ length bytes.now }
    ensures { result ≡ count_by (λ b. b == byte) (chunk from LANES bytes.now) }
{
    let hits = u8x32::from_slice(&bytes[from..]).simd_eq(u8x32::splat(byte));
    hits.to_bitmask().count_ones() as usize
}

// The same, one byte after another.
fn count_in_rest(bytes: &[u8], byte: u8) -> usize
    ensures { result ≡ count_by (λ b. b == byte) bytes.now }
{
    let mut count = 0usize;
    for b in bytes {
        if *b == byte {
            count += 1;
        }
    }
    count
}
