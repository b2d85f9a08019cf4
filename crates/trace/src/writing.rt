// Writing commands as lines into a buffer that the caller lends.
ghost use Rattle.std.specs.Prelude.{◌≡◌, ◌*◌, ◌<◌, ◌≤◌, ◌++◌, length, drop};
ghost use Rattle.sheet.specs.First.{first_place};
ghost use Rattle.trace.specs.Digits.{digit, digits};
ghost use Rattle.trace.specs.Line.{line_of};
ghost use Rattle.trace.specs.Text.{written};
ghost use Rattle.trace.specs.Writing.{write_number, write_place, write_told, improper, writing, bytes_after, WrittenSo};

use crate::cutting::LINE;
use crate::line::is_proper;
use rulebook::command::Command;

// The byte of each digit.
const DIGITS: [u8; 16] = *b"0123456789ABCDEF";

// Why commands are not written; the first reason in this order is answered.
#[derive(Clone, Copy, Debug, PartialEq, Eq)]
pub enum WriteRefusal {
    // The buffer has fewer than 27 bytes for each command.
    Buffer,
    // The record of this number is improper, and none before it.
    Improper(usize),
}

impl WriteRefusal {
    // The number of the refusal. It has a name and is no `From`: `u8::from` would not say that it is the listed number.
    pub fn number(self) -> u8
        ensures { result ≡ write_number self }
    {
        match self {
            WriteRefusal::Buffer => 15,
            WriteRefusal::Improper(_) => 17,
        }
    }

    // The record that it carries.
    pub fn record(self) -> Option<usize>
        ensures { result ≡ write_place self }
    {
        match self {
            WriteRefusal::Buffer => None,
            WriteRefusal::Improper(place) => Some(place),
        }
    }
}

// Writes the line of command k into the bytes 27 × k to 27 × k + 26, and answers the count of lines. All other bytes stay as they are, and every byte does where it is refused.
// The buffer is lent and the answer counts its lines: by a rule of the project (docs/DECISIONS.md) nothing is allocated.
pub fn write_lines(commands: &[Command], out: &mut [u8]) -> Result<usize, WriteRefusal>
    ensures answer { write_told result ≡ writing (length out.old) commands.now }
    ensures contents { out.new ≡ bytes_after commands.now result out.old }
    ensures text { WrittenSo commands.now result out.new }
{
    write_checked(commands, out)
}

// Looks at every record before the first byte is written; a function of its own, so that a wrong decision is refused here and the laws are added by its caller.
fn write_checked(commands: &[Command], out: &mut [u8]) -> Result<usize, WriteRefusal>
    ensures answer { write_told result ≡ writing (length out.old) commands.now }
    ensures contents { out.new ≡ bytes_after commands.now result out.old }
{
    if out.len() / LINE < commands.len() {
        return Err(WriteRefusal::Buffer);
    }
    if let Some(place) = first_improper(commands) {
        return Err(WriteRefusal::Improper(place));
    }
    fill_lines(commands, out);
    Ok(commands.len())
}

// The number of the first improper record; a function of its own, so that its caller has the clause.
#[tactic(auto, unfolding(crate::specs::Writing::improper))]
fn first_improper(commands: &[Command]) -> Option<usize>
    ensures { result ≡ first_place improper commands.now }
{
    commands.iter().position(|command| !is_proper(*command))
}

// The commands' lines from the start of the buffer on.
// The part of line k is named by its bytes' numbers: what a loop writes through `chunks_exact_mut` or `split_at_mut` no proof knows behind the loop.
fn fill_lines(commands: &[Command], out: &mut [u8])
    requires { 27 * length commands.now ≤ length out.old }
    ensures { out.new ≡ written commands.now ++ drop (27 * length commands.now) out.old }
{
    for (k, command) in commands.iter().enumerate() {
        write_line(&mut out[LINE * k..LINE * k + LINE], *command);
    }
}

// One line, into exactly its 27 bytes. The parts are named by their bytes, as the format names them.
fn write_line(out: &mut [u8], command: Command)
    requires { length out.old ≡ 27 }
    ensures { out.new ≡ line_of command }
{
    write_digits(&mut out[0..8], command.cycle);
    write_digits(&mut out[8..9], u32::from(command.kind.number()));
    write_digits(&mut out[9..10], u32::from(command.bank));
    write_digits(&mut out[10..14], u32::from(command.row));
    write_digits(&mut out[14..17], u32::from(command.column));
    write_digits(&mut out[17..18], u32::from(command.requester));
    write_digits(&mut out[18..26], command.number);
    out[26] = b'\n';
}

// Fills the part with the last digits of a number, from the right.
fn write_digits(out: &mut [u8], number: u32)
    ensures { out.new ≡ digits (length out.old) number }
{
    if let Some((last, front)) = out.split_last_mut() {
        *last = digit_byte(number % 16);
        write_digits(front, number / 16);
    }
}

// The byte that stands for a digit's value.
fn digit_byte(value: u32) -> u8
    requires { value < 16 }
    ensures { result ≡ digit value }
{
    DIGITS[value as usize]
}
