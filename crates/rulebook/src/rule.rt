// The rules by name and number.
ghost use Rattle.std.specs.Prelude.{◌≡◌, Some};
ghost use Rattle.rulebook.specs.Book.{rule_number};
ghost use Rattle.rulebook.specs.Sentences.{sentence};

use std::fmt;

// The sixteen rules in order; each with its number.
#[derive(Clone, Copy, Debug, PartialEq, Eq)]
pub enum Rule {
    // Cycles rise strictly.
    CyclesRise = 1,
    // Bank, row and column are inside the chip.
    InsideChip = 2,
    // An activate goes to a closed bank.
    ActivateClosed = 3,
    // A precharge goes to an open bank.
    PrechargeOpen = 4,
    // A read or write goes to a bank open at its row.
    ColumnOpen = 5,
    // Activate to activate, same bank: tRC.
    ActivateActivateSame = 6,
    // Activate to activate, another bank: tRRD.
    ActivateActivateOther = 7,
    // Activate to precharge, same bank: tRAS.
    ActivatePrecharge = 8,
    // Activate to read or write, same bank: tRCD.
    ActivateColumn = 9,
    // Precharge to activate, same bank: tRP.
    PrechargeActivate = 10,
    // Read to read and write to write, any banks: tCCD.
    ColumnColumn = 11,
    // Read to write, any banks: RL + tCCD + 2 - WL.
    ReadWrite = 12,
    // Write to read, any banks: WL + BURST + tWTR.
    WriteRead = 13,
    // Read to precharge, same bank: tRTP.
    ReadPrecharge = 14,
    // Write to precharge, same bank: WL + BURST + tWR.
    WritePrecharge = 15,
    // The fifth of any five successive activates comes tFAW after the first, or later.
    FourActivates = 16,
}

impl Rule {
    // The number by which the rule is told. It has a name and is no `From`: `u8::from` would not say that it is the listed number.
    pub fn number(self) -> u8
        ensures { result ≡ rule_number self }
    {
        self as u8
    }

    // What is wrong where the rule is broken.
    #[tactic(auto, unfolding(crate::specs::Sentences::sentence))]
    fn sentence(self) -> &'static str
        ensures { result.now ≡ sentence self }
    {
        match self {
            Rule::CyclesRise => "the cycle is not larger than that of the line before",
            Rule::InsideChip => "the bank, row or column is outside the chip",
            Rule::ActivateClosed => "an activate goes to a bank that is open",
            Rule::PrechargeOpen => "a precharge goes to a bank that is closed",
            Rule::ColumnOpen => "a read or write goes to a bank that is not open at its row",
            Rule::ActivateActivateSame =>
                "an activate comes too soon after an activate of the same bank",
            Rule::ActivateActivateOther =>
                "an activate comes too soon after an activate of another bank",
            Rule::ActivatePrecharge =>
                "a precharge comes too soon after an activate of the same bank",
            Rule::ActivateColumn =>
                "a read or write comes too soon after an activate of the same bank",
            Rule::PrechargeActivate =>
                "an activate comes too soon after a precharge of the same bank",
            Rule::ColumnColumn => "a read comes too soon after a read, or a write after a write",
            Rule::ReadWrite => "a write comes too soon after a read",
            Rule::WriteRead => "a read comes too soon after a write",
            Rule::ReadPrecharge => "a precharge comes too soon after a read of the same bank",
            Rule::WritePrecharge => "a precharge comes too soon after a write of the same bank",
            Rule::FourActivates =>
                "a fifth activate comes too soon after the first of the last five",
        }
    }
}

// A rule is shown as what is wrong where it is broken.
impl fmt::Display for Rule {
    ghost output = { λ rule. Some (sentence rule) };

    fn fmt<W: fmt::Write>(&self, f: &mut fmt::Formatter<W>) -> fmt::Result {
        f.write_str(self.sentence())
    }
}
