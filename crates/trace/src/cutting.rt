// Text as lines: it is cut every 27 bytes, and a shorter last piece is a line too.
ghost use Rattle.std.specs.Prelude.{◌≡◌, ◌<◌, [], length, slice_index_or};
ghost use Rattle.sheet.specs.Units.{rounded_up};
ghost use Rattle.trace.specs.Text.{line_count, line_at, lines_of, LinesCorrespond};

// The bytes of one line.
pub const LINE: usize = 27;

// How many lines a text has.
#[tactic(auto, using(crate::proofs::TextLaws::length_lines))]
pub fn line_count(text: &[u8]) -> usize
    ensures value { result ≡ line_count text.now }
    ensures counts { result ≡ length (lines_of text.now) }
{
    lines_in(text.len())
}

// Line k of a text, counted from 0, for callers that go line by line; empty behind the last line.
#[tactic(auto, using(crate::proofs::TextLaws::length_lines, crate::proofs::TextLaws::get_or_lines))]
pub fn line_at(text: &[u8], k: usize) -> &[u8]
    ensures value { result.now ≡ line_at text.now k }
    ensures nth { k < length (lines_of text.now) → result.now ≡ slice_index_or (lines_of text.now) k [] }
{
    cut(text, k)
}

// Line k of a text, by its bytes' numbers: `chunks(LINE).nth(k)` would pass over the k lines before it.
fn cut(text: &[u8], k: usize) -> &[u8]
    ensures { result.now ≡ line_at text.now k }
{
    if k >= lines_in(text.len()) {
        return &text[text.len()..];
    }
    let rest = &text[LINE * k..];
    if rest.len() > LINE {
        &rest[0..LINE]
    } else {
        rest
    }
}

// How many lines so many bytes make.
fn lines_in(bytes: usize) -> usize
    ensures { result ≡ rounded_up bytes 27 }
{
    bytes.div_ceil(LINE)
}

// The law of the formats: a text reads as a list of commands exactly when it is the text written of that list.
pub fn lines_correspond() -> u8
    ensures { LinesCorrespond }
{
    0
}
