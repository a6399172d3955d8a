//! Texts that are numbers, and columns of them.

ghost use Rattle.std.specs.Prelude.{◌≡◌, ◌≤◌, false, true, drop, length, map};
ghost use Rattle.std.specs.Char.{is_ascii_digit};
ghost use Rattle.std.specs.List.{prefix_len};
ghost use Rattle.papergrid_csv.specs.Numbers.{after_digits, after_exponent, after_fraction, after_groups, after_point, after_sign, after_whole, begins_with_digit, field_in, is_number, is_numeric};
ghost use Rattle.papergrid_csv.specs.Rows.{row_texts};

/// Whether a text is a number: a sign or none; digits, or one to three digits and then groups of a comma and three digits; a
/// point or none, with digits behind it or none; an exponent or none. One digit at least stands before or behind the point.
#[tactic(auto, unfolding(crate::specs::Numbers::is_number))]
fn is_number(text: &str) -> bool
    ensures { result ≡ is_number text.now }
{
    let unsigned = after_sign(text.as_bytes());
    begins_with_digit(after_point(unsigned))
        && after_exponent(after_fraction(after_whole(unsigned))).is_empty()
}

fn after_sign(text: &[u8]) -> &[u8]
    ensures { result.now ≡ after_sign text.now }
{
    match text {
        [b'+' | b'-', rest @ ..] => rest,
        _ => text,
    }
}

/// How many digits stand at the front.
fn count_digits(text: &[u8]) -> usize
    ensures count { result ≡ prefix_len is_ascii_digit text.now }
    ensures within { result ≤ length text.now }
{
    let mut count = 0;
    for byte in text {
        if !byte.is_ascii_digit() {
            return count;
        }
        count += 1;
    }
    count
}

fn after_digits(text: &[u8]) -> &[u8]
    ensures { result.now ≡ after_digits text.now }
{
    &text[count_digits(text)..]
}

/// Whether a comma and three digits stand at the front.
fn begins_with_group(text: &[u8]) -> bool
    ensures long { result ≡ true → 4 ≤ length text.now }
    ensures group { result ≡ true → after_groups text.now ≡ after_groups (drop 4 text.now) }
    ensures none { result ≡ false → after_groups text.now ≡ text.now }
{
    match text {
        [b',', a, b, c, ..] => a.is_ascii_digit() && b.is_ascii_digit() && c.is_ascii_digit(),
        _ => false,
    }
}

fn after_groups(text: &[u8]) -> &[u8]
    ensures { result.now ≡ after_groups text.now }
{
    let mut rest = text;
    while begins_with_group(rest) {
        rest = &rest[4..];
    }
    rest
}

fn after_whole(text: &[u8]) -> &[u8]
    ensures { result.now ≡ after_whole text.now }
{
    let count = count_digits(text);
    let rest = &text[count..];
    if 1 <= count && count <= 3 {
        after_groups(rest)
    } else {
        rest
    }
}

fn after_point(text: &[u8]) -> &[u8]
    ensures { result.now ≡ after_point text.now }
{
    match text {
        [b'.', rest @ ..] => rest,
        _ => text,
    }
}

fn after_fraction(text: &[u8]) -> &[u8]
    ensures { result.now ≡ after_fraction text.now }
{
    match text {
        [b'.', rest @ ..] => after_digits(rest),
        _ => text,
    }
}

fn begins_with_digit(text: &[u8]) -> bool
    ensures { result ≡ begins_with_digit text.now }
{
    match text {
        [byte, ..] => byte.is_ascii_digit(),
        _ => false,
    }
}

fn after_exponent(text: &[u8]) -> &[u8]
    ensures { result.now ≡ after_exponent text.now }
{
    let [b'e' | b'E', rest @ ..] = text else {
        return text;
    };
    let unsigned = after_sign(rest);
    if begins_with_digit(unsigned) {
        after_digits(unsigned)
    } else {
        text
    }
}

/// The field of a row in a column, an empty one where it has none.
pub fn field_in<'t>(column: usize, row: &[&'t str]) -> &'t str
    ensures { result.now ≡ field_in column (map (λ text. text.now) row.now) }
{
    match row.get(column) {
        Some(field) => *field,
        None => "",
    }
}

/// Whether a column of these rows is one of numbers: each field is a number or empty, and one at least is a number.
pub fn is_numeric(rows: &[Vec<&str>], column: usize) -> bool
    ensures { result ≡ is_numeric (map row_texts rows.now) column }
{
    let mut found = false;
    for row in rows {
        let field = field_in(column, row);
        if is_number(field) {
            found = true;
        } else if !field.is_empty() {
            return false;
        }
    }
    found
}
