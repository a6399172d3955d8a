//! What a word after the name of a program asks for.

ghost use Rattle.std.specs.Prelude.{◌≡◌};
ghost use Rattle.papergrid_script.specs.Arguments.{asked_by};

/// What a word asks for.
#[derive(Drop)]
pub enum Request {
    /// The table of the input that is read.
    OfInput,
    /// The table of the input in a file.
    OfFile(String),
    /// What the program takes and what it writes.
    Help,
    /// Which program it is.
    Version,
}

/// A word that a program does not take.
#[derive(Drop)]
pub enum Unexpected {
    /// An option that there is not.
    NoOption(String),
    /// A word after the one that tells the input.
    Another(String),
}

/// What one word asks for that is no option of a table. A word before it may have asked already. After `--` no word is an
/// option.
#[tactic(auto, unfolding(crate::specs::Arguments::asked_by))]
pub fn asked_by(is_asked: bool, word: String, takes_options: bool) -> Result<Request, Unexpected>
    ensures { result ≡ asked_by is_asked word takes_options }
{
    let text = word.as_str();
    let request = match text {
        "-" => Request::OfInput,
        "--help" | "-h" if takes_options => Request::Help,
        "--version" | "-V" if takes_options => Request::Version,
        _ if takes_options && text.starts_with('-') => return Err(Unexpected::NoOption(word)),
        _ if is_asked => return Err(Unexpected::Another(word)),
        _ => return Ok(Request::OfFile(word)),
    };
    if is_asked {
        return Err(Unexpected::Another(word));
    }
    Ok(request)
}
