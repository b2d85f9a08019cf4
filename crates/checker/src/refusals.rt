// Why a trace does not pass.
ghost use Rattle.std.specs.Prelude.{◌≡◌, Some};
ghost use Rattle.std.specs.Option.{option_map};
ghost use Rattle.rulebook.specs.Book.{rule_number};
ghost use Rattle.checker.specs.declared.refusals.TextRefusal.TheVariants.{Board as OfBoard};
ghost use Rattle.checker.specs.Words.{words_of};
ghost use Rattle.checker.specs.Refusals.{record_number, record_line, record_rule, text_number, text_place, text_rule};

use rulebook::rule::Rule;
use std::fmt;
use trace::board::BoardRefusal;

// Why records do not pass. Lines are counted from 0.
#[derive(Clone, Copy, Debug, PartialEq, Eq)]
pub enum RecordRefusal {
    // The record at this line is improper.
    Improper(usize),
    // The command at this line breaks this rule, and none of a smaller number.
    Broken(usize, Rule),
}

// Why text does not pass; the first reason in this order is answered, and of the lines the first that is bad.
#[derive(Clone, Copy, Debug, PartialEq, Eq)]
pub enum TextRefusal {
    // The text is over 1,073,741,824 bytes.
    TooLong,
    // The sheet line gives no sheet and chip.
    Board(BoardRefusal),
    // This line is malformed.
    Malformed(usize),
    // The command at this line breaks this rule, and none of a smaller number.
    Broken(usize, Rule),
}

impl RecordRefusal {
    // The number of the refusal. It has a name and is no `From`: `u8::from` would not say that it is the listed number.
    pub fn number(self) -> u8
        ensures { result ≡ record_number self }
    {
        match self {
            RecordRefusal::Improper(_) => 17,
            RecordRefusal::Broken(_, _) => 18,
        }
    }

    // The line that it carries.
    pub fn line(self) -> usize
        ensures { result ≡ record_line self }
    {
        match self {
            RecordRefusal::Improper(line) | RecordRefusal::Broken(line, _) => line,
        }
    }

    // The rule that it carries.
    pub fn rule(self) -> Option<Rule>
        ensures { option_map rule_number result ≡ record_rule self }
    {
        match self {
            RecordRefusal::Improper(_) => None,
            RecordRefusal::Broken(_, rule) => Some(rule),
        }
    }
}

// A board that the sheet line does not give is a reason against the text.
impl From<BoardRefusal> for TextRefusal {
    ghost from_gives = { λ why refusal. refusal ≡ OfBoard why };

    fn from(of_board: BoardRefusal) -> TextRefusal {
        TextRefusal::Board(of_board)
    }
}

impl TextRefusal {
    // The number of the refusal. It has a name and is no `From`: `u8::from` would not say that it is the listed number.
    pub fn number(self) -> u8
        ensures { result ≡ text_number self }
    {
        match self {
            TextRefusal::TooLong => 19,
            TextRefusal::Board(why) => why.number(),
            TextRefusal::Malformed(_) => 16,
            TextRefusal::Broken(_, _) => 18,
        }
    }

    // The line, or the place in the sheet, that it carries.
    pub fn place(self) -> Option<usize>
        ensures { result ≡ text_place self }
    {
        match self {
            TextRefusal::TooLong => None,
            TextRefusal::Board(why) => why.place(),
            TextRefusal::Malformed(line) | TextRefusal::Broken(line, _) => Some(line),
        }
    }

    // The rule that it carries.
    pub fn rule(self) -> Option<Rule>
        ensures { option_map rule_number result ≡ text_rule self }
    {
        match self {
            TextRefusal::TooLong | TextRefusal::Board(_) | TextRefusal::Malformed(_) => None,
            TextRefusal::Broken(_, rule) => Some(rule),
        }
    }
}

// A refusal is shown by its number with what it carries, or as the rule that is broken.
impl fmt::Display for TextRefusal {
    ghost output = { λ why. Some (words_of why) };

    fn fmt<W: fmt::Write>(&self, f: &mut fmt::Formatter<W>) -> fmt::Result {
        let number = self.number();
        match self {
            TextRefusal::TooLong => write!(f, "refused {number}"),
            TextRefusal::Board(why) => write!(f, "{why}"),
            TextRefusal::Malformed(line) => write!(f, "refused {number} at line {line}"),
            TextRefusal::Broken(line, rule) => {
                let number = rule.number();
                write!(f, "line {line} breaks rule {number}: {rule}")
            }
        }
    }
}
