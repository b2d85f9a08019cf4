// The laws of the rule book that callers build on.
ghost use Rattle.rulebook.specs.Laws.{NothingObeys, PrefixesObey, LawfulCommandsExtend, LastIsLawful, StaysLawful, PrechargeInTime, ActivateInTime, ColumnInTime};

// Nothing runs here: the contract holds the laws, each for every sheet, chip and history.
pub fn laws_stand() -> u8
    ensures nothing { NothingObeys }
    ensures prefixes { PrefixesObey }
    ensures extend { LawfulCommandsExtend }
    ensures last { LastIsLawful }
    ensures stays { StaysLawful }
    ensures precharge { PrechargeInTime }
    ensures activate { ActivateInTime }
    ensures column { ColumnInTime }
{
    0
}
