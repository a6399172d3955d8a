//! Printable ASCII, many bytes at a time.

ghost use Rattle.std.specs.Prelude.{◌≡◌, ◌+◌, ◌-◌, ◌<◌, ◌≤◌, true, false, length, take, drop, get_or};
ghost use Rattle.std.specs.Int.{is_in_range};
ghost use Rattle.std.specs.List.{list_all, prefix_len};
ghost use Rattle.std.specs.Simd.Lanes.{chunk};

use std::simd::prelude::*;

/// Whether the text is printable ASCII. Then it is as wide as it is long, and has no newline.
pub fn is_printable(text: &str) -> bool
    ensures { result ≡ list_all (is_in_range 0x20 0x7E) text.now }
{
    count_printable(text) == text.len()
}

/// How many bytes from the front on are printable ASCII.
pub fn count_printable(text: &str) -> usize
    ensures { result ≡ prefix_len (is_in_range 0x20 0x7E) text.now }
{
    count_printable_bytes(text.as_bytes())
}

/// The same of bytes.
pub(crate) fn count_printable_bytes(bytes: &[u8]) -> usize
    ensures { result ≡ prefix_len (is_in_range 0x20 0x7E) bytes.now }
{
    if bytes.len() >= 16 {
        count_by_sixteens(bytes)
    } else if bytes.len() >= 8 {
        count_by_two_loads::<8>(bytes)
    } else if bytes.len() >= 4 {
        count_by_two_loads::<4>(bytes)
    } else {
        count_one_by_one(bytes)
    }
}

// The last load of each of these starts so early that it ends with the bytes. What it has of an earlier load is
// printable then.
fn count_by_sixteens(bytes: &[u8]) -> usize
    requires { 16 ≤ length bytes.now }
    ensures { result ≡ prefix_len (is_in_range 0x20 0x7E) bytes.now }
{
    let last = bytes.len() - 16;
    let mut count = 0usize;
    while count < last {
        let run = count_in_load::<16>(bytes, count);
        if run < 16 {
            return count + run;
        }
        count += 16;
    }
    last + count_in_load::<16>(bytes, last)
}

fn count_by_two_loads<const N: usize>(bytes: &[u8]) -> usize
    requires least { N ≤ length bytes.now }
    requires most { length bytes.now ≤ N + N }
    requires few { N ≤ 64 }
    ensures { result ≡ prefix_len (is_in_range 0x20 0x7E) bytes.now }
{
    let last = bytes.len() - N;
    // Most texts are printable.
    if is_printable_load::<N>(bytes, 0) && is_printable_load::<N>(bytes, last) {
        return bytes.len();
    }
    let run = count_in_load::<N>(bytes, 0);
    if run < N {
        return run;
    }
    last + count_in_load::<N>(bytes, last)
}

fn count_one_by_one(bytes: &[u8]) -> usize
    ensures { result ≡ prefix_len (is_in_range 0x20 0x7E) bytes.now }
{
    let mut count = 0usize;
    for b in bytes {
        if *b < 0x20 || *b > 0x7E {
            return count;
        }
        count += 1;
    }
    count
}

// Whether all of so many bytes from a place on are printable, by one load.
fn is_printable_load<const N: usize>(bytes: &[u8], from: usize) -> bool
    requires room { from + N ≤ length bytes.now }
    requires few { N ≤ 64 }
    ensures { result ≡ true → N ≡ prefix_len (is_in_range 0x20 0x7E) (chunk from N bytes.now) }
{
    let lanes = Simd::<u8, N>::from_slice(&bytes[from..]);
    let others = lanes.simd_lt(Simd::splat(0x20)) | lanes.simd_ge(Simd::splat(0x7F));
    others.to_bitmask() == 0
}

// How many of them are printable, from the front on.
fn count_in_load<const N: usize>(bytes: &[u8], from: usize) -> usize
    requires room { from + N ≤ length bytes.now }
    requires few { N ≤ 64 }
    ensures { result ≡ prefix_len (is_in_range 0x20 0x7E) (chunk from N bytes.now) }
{
    let lanes = Simd::<u8, N>::from_slice(&bytes[from..]);
    let others = lanes.simd_lt(Simd::splat(0x20)) | lanes.simd_ge(Simd::splat(0x7F));
    let mask = others.to_bitmask();
    if mask == 0 {
        N
    } else {
        mask.trailing_zeros() as usize
    }
}

/// The text without the printable ASCII at its end.
pub(crate) fn without_printable_end(text: &str) -> &str
    ensures front { result.now ≡ take (length result.now) text.now }
    ensures len { length result.now ≤ length text.now }
    ensures printable { list_all (is_in_range 0x20 0x7E) (drop (length result.now) text.now)
        ≡ true }
    ensures whole { 0 < length result.now →
        is_in_range 0x20 0x7E (get_or text.now (length result.now - 1) 0) ≡ false }
{
    let bytes = text.as_bytes();
    let mut end = bytes.len();
    'bytes: while end > 0 && bytes[end - 1] >= 0x20 && bytes[end - 1] <= 0x7E {
        end -= 1;
    }
    &text[..end]
}
