// What `page` prints: a meter's figures, one a line, then each frame that is held.
#![tactic(auto)]

ghost use Rattle.std.specs.Prelude.{◌≡◌, length};
ghost use Rattle.ground.specs.Limits.{frame_limit};
ghost use Rattle.slices.specs.Putting.{used_after, put_after};
ghost use Rattle.frames.specs.MeterTable.{meter_words, meter_from};
ghost use Rattle.meter.specs.Reading.{frame_of};
ghost use Rattle.paging.specs.Page.{named_text, frame_line, found_text, places_text, figures_text, page_text};

use ground::FRAMES;
use ground::refusals::Refusal;
use meter::table::{Figure, Frame};
use meter::{fit, table};
use slices::bytes;
use texts::text;

// A word and a number, each after a space.
fn put_named(out: &mut [u8], used: usize, name: &[u8], number: u32) -> usize
    ensures answer { result ≡ used_after used (named_text name.now number) out.old }
    ensures out { out.new ≡ put_after used (named_text name.now number) out.old }
{
    let then = bytes::put_byte(out, used, b' ');
    let then = bytes::put_text(out, then, name);
    let then = bytes::put_byte(out, then, b' ');
    text::put_number(out, then, number)
}

// The line of a frame.
fn put_frame(out: &mut [u8], used: usize, place: u32, frame: Frame) -> usize
    ensures answer { result ≡ used_after used (frame_line place (frame_of frame)) out.old }
    ensures out { out.new ≡ put_after used (frame_line place (frame_of frame)) out.old }
{
    let then = bytes::put_text(out, used, b"frame ");
    let then = text::put_number(out, then, place);
    let then = put_named(out, then, b"size", frame.size);
    let then = put_named(out, then, b"at", frame.unit);
    let then = put_named(out, then, b"to", frame.destination);
    let then = put_named(out, then, b"hops", frame.hops);
    bytes::put_byte(out, then, b'\n')
}

// The line of a place: none where it is free.
fn put_place(out: &mut [u8], used: usize, place: u32, found: Option<Frame>) -> usize
    ensures answer { result ≡ used_after used (found_text place found) out.old }
    ensures out { out.new ≡ put_after used (found_text place found) out.old }
{
    match found {
        Some(frame) => put_frame(out, used, place, frame),
        None => used,
    }
}

// The lines of all places.
fn put_places(meter: &[u32], out: &mut [u8], used: usize) -> usize
    requires { length meter.now ≡ meter_words }
    ensures answer { result ≡ used_after used (places_text (meter_from meter.now) frame_limit) out.old }
    ensures out { out.new ≡ put_after used (places_text (meter_from meter.now) frame_limit) out.old }
{
    let mut then = used;
    for place in 0..FRAMES {
        then = put_place(out, then, place as u32, table::held_at(meter, place));
    }
    then
}

// The lines of the figures.
fn put_figures(meter: &[u32], out: &mut [u8], used: usize) -> usize
    requires { length meter.now ≡ meter_words }
    ensures answer { result ≡ used_after used (figures_text (meter_from meter.now)) out.old }
    ensures out { out.new ≡ put_after used (figures_text (meter_from meter.now)) out.old }
{
    let then = text::put_figure(
        out,
        used,
        b"entered",
        table::figure_in(meter, Figure::Entered),
    );
    let then = text::put_figure(
        out,
        then,
        b"delivered",
        table::figure_in(meter, Figure::Delivered),
    );
    let then = text::put_figure(
        out,
        then,
        b"dropped",
        table::figure_in(meter, Figure::Dropped),
    );
    let then = text::put_figure(out, then, b"held", table::figure_in(meter, Figure::Held));
    text::put_figure(
        out,
        then,
        b"frames",
        table::figure_in(meter, Figure::Frames),
    )
}

// The whole page, or the refusal of tables that are not fit, behind the bytes used. Answers those used then.
pub fn page(words: &[u32], queues: &[u8], meter: &[u32], out: &mut [u8], used: usize) -> usize
    ensures answer { result ≡ used_after used (page_text words.now queues.now meter.now) out.old }
    ensures out { out.new ≡ put_after used (page_text words.now queues.now meter.now) out.old }
{
    if !fit::is_fit(words, queues, meter) {
        return text::put_refused(out, used, Refusal::Unfit.number());
    }
    let then = put_figures(meter, out, used);
    put_places(meter, out, then)
}
