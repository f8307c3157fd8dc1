// What tables and queues are made of: numbers of 32 bits, and bytes.
ghost use Rattle.std.specs.Prelude.{◌≡◌, ℕ, List, Bool};
ghost use Rattle.slices.specs.Slices.{is_nothing as none_but_zeros, greatest_of};
ghost use Rattle.slices.specs.Greatest.{greatest_tells};

pub trait Number: Copy + Ord {
    ghost zero: { Self };

    // Whether all are 0.
    ghost is_nothing: { List Self → Bool };

    fn zero() -> Self
        ensures { result ≡ zero };

    // The greatest of all, and of 0, says whether all are 0.
    ghost greatest_says: { (numbers : List Self) → Self.eq (greatest_of Self.cmp zero numbers) zero ≡ is_nothing numbers };
}

impl Number for u8 {
    ghost zero = { 0 };

    ghost is_nothing = { none_but_zeros };

    ghost greatest_says = { greatest_tells };

    fn zero() -> u8 {
        0
    }
}

impl Number for u32 {
    ghost zero = { 0 };

    ghost is_nothing = { none_but_zeros };

    ghost greatest_says = { greatest_tells };

    fn zero() -> u32 {
        0
    }
}
