//! Numbers of a script.

ghost use Rattle.std.specs.Prelude.{◌≡◌, ◌∷◌, []};
ghost use Rattle.std.specs.List.{list_all};
ghost use Rattle.std.specs.Char.{is_ascii_digit};
ghost use Rattle.papergrid_script.specs.Grammar.{number_said};

/// The number that the text spells: one or more ASCII digits and nothing else, of a value that fits.
pub fn number(spelled: &str) -> Option<usize>
    ensures { result ≡ number_said spelled.now }
{
    // Most numbers have one digit.
    if let [digit] = spelled.as_bytes() {
        return one_digit(*digit);
    }
    if !all_digits(spelled) {
        return None;
    }
    spelled.parse().ok()
}

/// The number that the byte spells alone.
#[tactic(auto, unfolding(crate::specs::Grammar::number_said))]
fn one_digit(byte: u8) -> Option<usize>
    ensures { result ≡ number_said (byte ∷ []) }
{
    if !byte.is_ascii_digit() {
        return None;
    }
    Some((byte - b'0') as usize)
}

/// Whether each byte is an ASCII digit. (`parse` takes a sign, too.)
fn all_digits(text: &str) -> bool
    ensures { result ≡ list_all is_ascii_digit text.now }
{
    text.bytes().all(|byte| byte.is_ascii_digit())
}
