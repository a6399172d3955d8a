//! The search for a byte, many bytes at a time. The kit's `memchr` tests 32 bytes at least, which costs
//! more on lines as short as those of a script.

ghost use Rattle.std.specs.Prelude.{◌≡◌, ◌≤◌, ◌==◌, ◌+◌, ◌||◌, length};
ghost use Rattle.std.specs.List.{position_or_len};
ghost use Rattle.std.specs.Simd.Lanes.{chunk};

use std::simd::prelude::*;

// Bytes that are tested at once.
const LANES: usize = 16;

/// The place of the first byte that is one of the two, or the length where none is.
pub fn find_either(bytes: &[u8], one: u8, other: u8) -> usize
    ensures { result ≡ position_or_len (λ b. (b == one) || (b == other)) bytes.now }
{
    if LANES <= bytes.len() {
        find_by_loads(bytes, one, other)
    } else if 8 <= bytes.len() {
        find_by_two_loads::<8>(bytes, one, other)
    } else if 4 <= bytes.len() {
        find_by_two_loads::<4>(bytes, one, other)
    } else {
        find_one_by_one(bytes, one, other)
    }
}

// The last load starts so early that it ends with the bytes. What it has of an earlier one is none of the two then.
fn find_by_loads(bytes: &[u8], one: u8, other: u8) -> usize
    requires { LANES ≤ length bytes.now }
    ensures { result ≡ position_or_len (λ b. (b == one) || (b == other)) bytes.now }
{
    let last = bytes.len() - LANES;
    let mut at = 0usize;
    while at < last {
        let run = find_in_lanes::<LANES>(bytes, at, one, other);
        if run < LANES {
            return at + run;
        }
        at += LANES;
    }
    last + find_in_lanes::<LANES>(bytes, last, one, other)
}

// The same of bytes that two loads hold.
fn find_by_two_loads<const N: usize>(bytes: &[u8], one: u8, other: u8) -> usize
    requires least { N ≤ length bytes.now }
    requires most { length bytes.now ≤ N + N }
    requires few { N ≤ 64 }
    ensures { result ≡ position_or_len (λ b. (b == one) || (b == other)) bytes.now }
{
    let run = find_in_lanes::<N>(bytes, 0, one, other);
    if run < N {
        return run;
    }
    let last = bytes.len() - N;
    last + find_in_lanes::<N>(bytes, last, one, other)
}

// The same of as many bytes as there are lanes, from a place on.
fn find_in_lanes<const N: usize>(bytes: &[u8], from: usize, one: u8, other: u8) -> usize
    requires room { from + N ≤ length bytes.now }
    requires few { N ≤ 64 }
    ensures { result ≡ position_or_len (λ b. (b == one) || (b == other)) (chunk from N bytes.now) }
{
    let lanes = Simd::<u8, N>::from_slice(&bytes[from..]);
    let found = lanes.simd_eq(Simd::splat(one)) | lanes.simd_eq(Simd::splat(other));
    let mask = found.to_bitmask();
    if mask == 0 {
        N
    } else {
        mask.trailing_zeros() as usize
    }
}

// The same, one byte after another.
fn find_one_by_one(bytes: &[u8], one: u8, other: u8) -> usize
    ensures { result ≡ position_or_len (λ b. (b == one) || (b == other)) bytes.now }
{
    let mut at = 0usize;
    for b in bytes {
        if *b == one || *b == other {
            return at;
        }
        at += 1;
    }
    at
}

/// The place of the first such byte, or the length where there is none.
pub fn find_byte(bytes: &[u8], byte: u8) -> usize
    ensures { result ≡ position_or_len (λ b. b == byte) bytes.now }
{
    find_either(bytes, byte, byte)
}
