//! Lists without repeats.

ghost use Rattle.std.specs.Prelude.{◌≡◌};
ghost use Rattle.udb_base.specs.Lists as lists;

/// Whether a value equals one of a list.
pub fn is_among<T: PartialEq>(one: &T, others: &[T]) -> bool
    ensures { result ≡ lists.is_among T.eq one.now others.now }
{
    for other in others {
        if one == other {
            return true;
        }
    }
    false
}

/// Whether no two values of a list are equal. The time grows with the square of the length.
pub fn are_distinct<T: PartialEq>(all: &[T]) -> bool
    ensures { result ≡ lists.are_distinct T.eq all.now }
{
    for (place, one) in all.iter().enumerate() {
        if is_among(one, &all[place + 1..]) {
            return false;
        }
    }
    true
}
