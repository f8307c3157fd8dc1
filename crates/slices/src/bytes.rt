// Bytes put behind those used, as far as there is room.
ghost use Rattle.std.specs.Prelude.{[], ◌∷◌, ◌≡◌};
ghost use Rattle.slices.specs.Putting.{used_after, put_after};

// A byte, if there is room for it; answers the bytes used then.
pub fn put_byte(out: &mut [u8], used: usize, byte: u8) -> usize
    ensures answer { result ≡ used_after used (byte ∷ []) out.old }
    ensures out { out.new ≡ put_after used (byte ∷ []) out.old }
{
    if used < out.len() {
        out[used] = byte;
        return used + 1;
    }
    used
}

// A text, byte by byte.
pub fn put_text(out: &mut [u8], used: usize, text: &[u8]) -> usize
    ensures answer { result ≡ used_after used text.now out.old }
    ensures out { out.new ≡ put_after used text.now out.old }
{
    let mut then = used;
    for byte in text {
        then = put_byte(out, then, *byte);
    }
    then
}
