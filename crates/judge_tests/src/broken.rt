// Rules that are broken, with the two cycles where the rule is a gap.
use crate::small::told;
use std::test::Fail;

#[test]
fn rules_that_are_no_gap(rt: HostRuntime) -> Result<(), Fail> {
    let outside = told(rt.alloc(), b"00000001180007000000000000\n")?;
    assert_eq!(rt;
        outside.as_str(),
        "line 0 breaks rule 2: the bank, row or column is outside the chip\n1202000000000000\n"
    );
    let closed = told(rt.alloc(), b"00000001300007000000000000\n")?;
    assert_eq!(rt;
        closed.as_str(),
        "line 0 breaks rule 5: a read or write goes to a bank that is not open at its row\n1205000000000000\n"
    );
    Ok(())
}

// The activate of another bank is the latest one, not the first.
#[test]
fn rule_7_another_bank(rt: HostRuntime) -> Result<(), Fail> {
    let text = told(
        rt.alloc(),
        b"00000001100007000000000000\n00000003110007000000000000\n00000004120007000000000000\n",
    )?;
    assert_eq!(rt;
        text.as_str(),
        "line 2 breaks rule 7: an activate comes too soon after an activate of another bank (cycle 3, then cycle 4; 2 cycles needed)\n1207000000000002\n"
    );
    Ok(())
}

// The read is that of another bank, with an activate behind it.
#[test]
fn rule_12_any_bank(rt: HostRuntime) -> Result<(), Fail> {
    let text = told(
        rt.alloc(),
        b"00000001100007000000000000\n00000003110007000000000000\n00000006300007001000000000\n00000008120007000000000000\n0000000C410007001000000000\n",
    )?;
    assert_eq!(rt;
        text.as_str(),
        "line 4 breaks rule 12: a write comes too soon after a read (cycle 6, then cycle 12; 7 cycles needed)\n120C000000000004\n"
    );
    Ok(())
}

// The write is that of the same bank; a later one of another bank does not count.
#[test]
fn rule_15_same_bank(rt: HostRuntime) -> Result<(), Fail> {
    let text = told(
        rt.alloc(),
        b"00000001100007000000000000\n00000003110007000000000000\n00000006400007001000000000\n0000000A410007001000000000\n00000012200000000000000000\n",
    )?;
    assert_eq!(rt;
        text.as_str(),
        "line 4 breaks rule 15: a precharge comes too soon after a write of the same bank (cycle 6, then cycle 18; 13 cycles needed)\n120F000000000004\n"
    );
    Ok(())
}

// Of five activates with an idle line among them, the fourth back is the first.
#[test]
fn rule_16_the_fourth_back(rt: HostRuntime) -> Result<(), Fail> {
    let text = told(
        rt.alloc(),
        b"00000001100007000000000000\n00000003110007000000000000\n00000004000000000000000000\n00000005120007000000000000\n00000007130007000000000000\n0000000C140007000000000000\n",
    )?;
    assert_eq!(rt;
        text.as_str(),
        "line 5 breaks rule 16: a fifth activate comes too soon after the first of the last five (cycle 1, then cycle 12; 12 cycles needed)\n1210000000000005\n"
    );
    Ok(())
}
