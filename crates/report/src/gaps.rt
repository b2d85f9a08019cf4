// The two cycles between which a gap is missing, at a line that breaks a gap rule.
ghost use Rattle.std.specs.Prelude.{◌≡◌, Some};
ghost use Rattle.trace.specs.Text.{line_count};
ghost use Rattle.report.specs.Gaps.{gap_of, is_at, counts_from, passed_over, such_in, counted_from, pair_near, missing_gap, gap_words};

use rulebook::command::{Command, Kind};
use rulebook::gap::too_soon;
use rulebook::rule::Rule;
use sheet::{Cycles, Sheet};
use std::fmt;
use trace::cutting::{LINE, line_at};
use trace::line::read_line;

// The cycles of an earlier and a later command, and the gap that was needed between them.
#[derive(Clone, Copy)]
pub(crate) struct Near {
    pub(crate) earlier: u32,
    pub(crate) later: u32,
    pub(crate) needed: Cycles,
}

// They are shown behind the rule that is broken.
impl fmt::Display for Near {
    ghost output = { λ n. Some (gap_words n) };

    fn fmt<W: fmt::Write>(&self, f: &mut fmt::Formatter<W>) -> fmt::Result {
        let Near {
            earlier,
            later,
            needed,
        } = *self;
        write!(
            f,
            " (cycle {earlier}, then cycle {later}; {needed} cycles needed)"
        )
    }
}

// The gap that is missing at a line that breaks a rule; none where the rule is no gap rule.
pub(crate) fn missing_gap(sheet: &Sheet, text: &[u8], line: usize, rule: Rule) -> Option<Near>
    ensures { result ≡ missing_gap sheet.now text.now line rule }
{
    let needed = gap_of(sheet, rule)?;
    let later = read_line(line_at(text, line))?;
    let earlier = counted_from(rule, later, &text[..LINE * line])?;
    pair_near(needed, earlier, later)
}

// The two cycles and the gap, where the later comes before the gap has passed.
fn pair_near(needed: Cycles, earlier: Command, later: Command) -> Option<Near>
    ensures { result ≡ pair_near needed earlier later }
{
    too_soon(Some(earlier.cycle), needed, later.cycle).then_some(Near {
        earlier: earlier.cycle,
        later: later.cycle,
        needed,
    })
}

// The command from which the rule counts its gap to the later one. It is looked for backwards in the text before that one.
fn counted_from(rule: Rule, later: Command, before: &[u8]) -> Option<Command>
    ensures { result ≡ counted_from rule later before.now (line_count before.now) }
{
    before
        .chunks(LINE)
        .rev()
        .filter_map(|line| such_in(rule, later, line))
        .nth(passed_over(rule))
}

// The command of a line, if the rule counts from it.
fn such_in(rule: Rule, later: Command, line: &[u8]) -> Option<Command>
    ensures { result ≡ such_in (counts_from rule later) line.now }
{
    read_line(line).filter(|earlier| counts_from(rule, later, *earlier))
}

// How many commands of its sort a rule passes over: rule 16 counts from the fourth activate back.
fn passed_over(rule: Rule) -> usize
    ensures { result ≡ passed_over rule }
{
    match rule {
        Rule::FourActivates => 3,
        _ => 0,
    }
}

// Whether the rule counts its gap from the earlier command to the later one.
fn counts_from(rule: Rule, later: Command, earlier: Command) -> bool
    ensures { result ≡ counts_from rule later earlier }
{
    match rule {
        Rule::CyclesRise | Rule::InsideChip => false,
        Rule::ActivateClosed | Rule::PrechargeOpen | Rule::ColumnOpen => false,
        Rule::ActivateActivateSame => is_at(Kind::Activate, later.bank, earlier),
        Rule::ActivateActivateOther => {
            earlier.kind == Kind::Activate && earlier.bank != later.bank
        }
        Rule::ActivatePrecharge => is_at(Kind::Activate, later.bank, earlier),
        Rule::ActivateColumn => is_at(Kind::Activate, later.bank, earlier),
        Rule::PrechargeActivate => is_at(Kind::Precharge, later.bank, earlier),
        Rule::ColumnColumn => earlier.kind == later.kind,
        Rule::ReadWrite => earlier.kind == Kind::Read,
        Rule::WriteRead => earlier.kind == Kind::Write,
        Rule::ReadPrecharge => is_at(Kind::Read, later.bank, earlier),
        Rule::WritePrecharge => is_at(Kind::Write, later.bank, earlier),
        Rule::FourActivates => earlier.kind == Kind::Activate,
    }
}

// Whether the command is of the kind and goes to the bank.
fn is_at(kind: Kind, bank: u8, command: Command) -> bool
    ensures { result ≡ is_at kind bank command }
{
    command.kind == kind && command.bank == bank
}

// The gap that the rule asks for, if it is a gap rule; the rule book tests these gaps in passing, here they are named. A match and no table, here and above: the check sees that no rule is left out.
fn gap_of(sheet: &Sheet, rule: Rule) -> Option<Cycles>
    ensures { result ≡ gap_of sheet.now rule }
{
    match rule {
        Rule::CyclesRise | Rule::InsideChip => None,
        Rule::ActivateClosed | Rule::PrechargeOpen | Rule::ColumnOpen => None,
        Rule::ActivateActivateSame => Some(sheet.rc),
        Rule::ActivateActivateOther => Some(sheet.rrd),
        Rule::ActivatePrecharge => Some(sheet.ras),
        Rule::ActivateColumn => Some(sheet.rcd),
        Rule::PrechargeActivate => Some(sheet.rp),
        Rule::ColumnColumn => Some(sheet.ccd),
        Rule::ReadWrite => Some(sheet.read_to_write()),
        Rule::WriteRead => Some(sheet.write_to_read()),
        Rule::ReadPrecharge => Some(sheet.rtp),
        Rule::WritePrecharge => Some(sheet.write_to_precharge()),
        Rule::FourActivates => Some(sheet.faw),
    }
}
