//! The numbers that calls answer.

ghost use Rattle.std.specs.Prelude.{◌≡◌, MatchResult};
ghost use Rattle.papergrid_c.specs.Numbers.{done, number_of};

use papergrid_builder::BuilderError;

/// It is done.
pub const DONE: i32 = 0;
/// The handle has no table.
pub const NO_TABLE: i32 = 2;
/// What is told does not fit into what the caller lends.
pub const NO_ROOM: i32 = 11;
/// A value is none of those that the call knows.
pub const BAD_VALUE: i32 = 12;
/// No cell stands over the point.
pub const NO_CELL: i32 = 13;
/// No cells certify the sizes.
pub const NO_CERTIFICATE: i32 = 14;

/// Why a table refuses a call.
pub fn number_of(error: BuilderError) -> i32
    ensures { result ≡ number_of error }
{
    match error {
        BuilderError::Memory => 1,
        BuilderError::NotText => 3,
        BuilderError::BadSetting => 4,
        BuilderError::OutOfRange => 5,
        BuilderError::OutOfTable(_) => 6,
        BuilderError::NotTiled(_) => 7,
        BuilderError::TooLarge => 8,
        BuilderError::NotEstimated => 9,
        BuilderError::Hidden => 10,
        BuilderError::NotAscii => BAD_VALUE,
    }
}

/// How a call ended.
pub fn number(answer: Result<(), BuilderError>) -> i32
    ensures { MatchResult answer (λ _. result ≡ done) (λ e. result ≡ number_of e) }
{
    match answer {
        Ok(()) => DONE,
        Err(error) => number_of(error),
    }
}
