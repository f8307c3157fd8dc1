// The numbers of a table and their bytes: 4 for each, high byte first.
ghost use Rattle.std.specs.Prelude.{◌≡◌, ◌+◌, ◌*◌, ◌≤◌, length};
ghost use Rattle.rules.specs.Tables.{bytes_of, words_of};
ghost use Rattle.border.specs.Numbers.{word_at};

// The number in the 4 bytes from `at` on.
fn word(bytes: &[u8], at: usize) -> u32
    requires { at + 4 ≤ length bytes.now }
    ensures { result ≡ word_at bytes.now at }
{
    u32::from_be_bytes([bytes[at], bytes[at + 1], bytes[at + 2], bytes[at + 3]])
}

// The numbers in the bytes, taken out of them. This and `lay_numbers` stand once in the archive, and not once in each export.
#[inline(never)]
pub(crate) fn take_numbers(numbers: &mut [u32], bytes: &[u8])
    requires { length bytes.now ≡ 4 * length numbers.old }
    ensures { numbers.new ≡ words_of bytes.now }
{
    for (i, number) in numbers.iter_mut().enumerate() {
        *number = word(bytes, 4 * i);
    }
}

// The numbers, laid over the bytes.
#[inline(never)]
pub(crate) fn lay_numbers(bytes: &mut [u8], numbers: &[u32])
    requires { length bytes.old ≡ 4 * length numbers.now }
    ensures { bytes.new ≡ bytes_of numbers.now }
{
    for (i, number) in numbers.iter().enumerate() {
        bytes[4 * i..4 * i + 4].copy_from_slice(&number.to_be_bytes());
    }
}
