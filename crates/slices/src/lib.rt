// What is done to lent bytes and numbers of any length: laid over others, cleared, tested for nothing, put behind what is used.
//
// Each function takes any lengths and places, and its contract says what then happens, so callers need no tests of their own.
// What is done to bytes and to numbers alike is written once, for every type that is a `Number`; `bytes` has what is done to
// bytes alone.
#![tactic(auto)]

ghost use Rattle.std.specs.Prelude.{◌≡◌, length, replicate};
ghost use Rattle.slices.specs.Slices.{laid_over};

pub mod bytes;
pub mod number;

use number::Number;

// Laid over others from a place on. Where they don't fit there nothing changes.
pub fn lay_over<T: Copy>(to: &mut [T], place: usize, from: &[T])
    ensures { to.new ≡ laid_over to.old place from.now }
{
    if to.len() < from.len() {
        return;
    }
    if to.len() - from.len() < place {
        return;
    }
    to[place..place + from.len()].copy_from_slice(from);
}

// Zeros over all.
pub fn clear<T: Number>(numbers: &mut [T])
    ensures { numbers.new ≡ replicate (length numbers.old) T.zero }
{
    for number in numbers.iter_mut() {
        *number = T::zero();
    }
}

// Whether all are 0. The greatest of them says so, without a test for each.
pub fn is_nothing<T: Number>(numbers: &[T]) -> bool
    ensures { result ≡ T.is_nothing numbers.now }
{
    let mut most = T::zero();
    for number in numbers {
        most = most.max(*number);
    }
    most == T::zero()
}
