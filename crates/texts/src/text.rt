// Decimals, and the lines of a refusal, of a frame that is held, and of a figure.
ghost use Rattle.std.specs.Prelude.{◌≡◌, ◌+◌, ◌%◌};
ghost use Rattle.ground.specs.Bytes.{digit_zero};
ghost use Rattle.slices.specs.Putting.{used_after, put_after};
ghost use Rattle.texts.specs.Printed.{refused_line, held_line, figure_line};
ghost use Rattle.texts.specs.Texts.{decimal_of, long_decimal_of};

use slices::bytes;

// The most digits of a number.
const DIGITS: usize = 20;

// The last digit of a number.
fn digit(number: u64) -> u8
    ensures { result ≡ digit_zero + number % 10 }
{
    b'0' + (number % 10) as u8
}

// The decimal of a number. Its digits come from the last to the first, so they are laid into an array from its end on.
fn put_long(out: &mut [u8], used: usize, number: u64) -> usize
    ensures answer { result ≡ used_after used (long_decimal_of number) out.old }
    ensures out { out.new ≡ put_after used (long_decimal_of number) out.old }
{
    let mut digits = [0u8; DIGITS];
    let mut rest = number;
    let mut first = DIGITS - 1;
    // It stops at the first digit, and how many there are follows from the number alone.
    while 10 <= rest {
        let byte = digit(rest);
        digits[first] = byte;
        rest /= 10;
        first -= 1;
    }
    let byte = digit(rest);
    digits[first] = byte;
    bytes::put_text(out, used, &digits[first..])
}

// The same for a number of 32 bits.
pub fn put_number(out: &mut [u8], used: usize, number: u32) -> usize
    ensures answer { result ≡ used_after used (decimal_of number) out.old }
    ensures out { out.new ≡ put_after used (decimal_of number) out.old }
{
    put_long(out, used, number as u64)
}

// The line of a refusal.
pub fn put_refused(out: &mut [u8], used: usize, number: u32) -> usize
    ensures answer { result ≡ used_after used (refused_line number) out.old }
    ensures out { out.new ≡ put_after used (refused_line number) out.old }
{
    let then = bytes::put_text(out, used, b"refused ");
    let then = put_number(out, then, number);
    bytes::put_byte(out, then, b'\n')
}

// The line of a frame that is held.
pub fn put_held(out: &mut [u8], used: usize, place: u32) -> usize
    ensures answer { result ≡ used_after used (held_line place) out.old }
    ensures out { out.new ≡ put_after used (held_line place) out.old }
{
    let then = bytes::put_text(out, used, b"held ");
    let then = put_number(out, then, place);
    bytes::put_byte(out, then, b'\n')
}

// The line of a figure.
pub fn put_figure(out: &mut [u8], used: usize, name: &[u8], value: u64) -> usize
    ensures answer { result ≡ used_after used (figure_line name.now value) out.old }
    ensures out { out.new ≡ put_after used (figure_line name.now value) out.old }
{
    let then = bytes::put_text(out, used, name);
    let then = bytes::put_byte(out, then, b' ');
    let then = put_long(out, then, value);
    bytes::put_byte(out, then, b'\n')
}
