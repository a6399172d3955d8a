//! Clones of parts, each of which is set or not. A value with many of them is cloned with one way
//! out where memory lacks, and not with one for each part.

ghost use Rattle.std.specs.Prelude.{◌≡◌, MatchOption, IsSomeAnd, None, false};
ghost use Rattle.std.specs.Option.{ForSome};

use std::alloc::AllocError;

// A clone of the part. Out of memory it is none, and that is noted.
pub(crate) fn clone_part<T: Clone>(part: &Option<T>, is_refused: &mut bool) -> Option<T>
    ensures clones { is_refused.new ≡ false →
        (is_refused.old ≡ false) × ⟦<Option<T> as Clone>⟧.is_clone part.now result }
    ensures succeeds { ForSome part.now T.is_infallible → is_refused.new ≡ is_refused.old }
{
    match part.clone() {
        Ok(copy) => copy,
        Err(_) => {
            *is_refused = true;
            None
        }
    }
}

// The same of a part that is lent.
pub(crate) fn cloned_part<T: Clone>(part: Option<&T>, is_refused: &mut bool) -> Option<T>
    ensures clones { is_refused.new ≡ false → (is_refused.old ≡ false)
        × MatchOption part.entry (result ≡ None) (λ x. IsSomeAnd result (T.is_clone x.now)) }
    ensures succeeds { ForSome part.entry (λ x. T.is_infallible x.now) →
        is_refused.new ≡ is_refused.old }
{
    match part.cloned() {
        Ok(copy) => copy,
        Err(_) => {
            *is_refused = true;
            None
        }
    }
}
