// Inputs that are refused.
use crate::small::{LINE, told, told_by};
use report::judging::judging_text;
use std::test::Fail;

#[test]
fn an_input_shorter_than_a_sheet_line(rt: HostRuntime) -> Result<(), Fail> {
    let cut = judging_text(rt.alloc(), &LINE[0..119])?;
    assert_eq!(rt; cut.as_str(), "refused 20\n1400000000000000\n");
    let none = judging_text(rt.alloc(), b"")?;
    assert_eq!(rt; none.as_str(), "refused 20\n1400000000000000\n");
    Ok(())
}

#[test]
fn a_malformed_line(rt: HostRuntime) -> Result<(), Fail> {
    let text = told(
        rt.alloc(),
        b"00000001100007000000000000\n00000003110007000000000000\n00000005120007000000000000\n0000000d130007000000000000\n",
    )?;
    assert_eq!(rt; text.as_str(), "refused 16 at line 3\n1000000000000003\n");
    Ok(())
}

#[test]
fn a_sheet_that_is_refused(rt: HostRuntime) -> Result<(), Fail> {
    let mut line = LINE;
    line[29] = b'F';
    let length = told_by(rt.alloc(), &line, b"")?;
    assert_eq!(rt; length.as_str(), "refused 2 at 3\n0200000000000003\n");
    let mut line = LINE;
    line[109] = b'1';
    let chip = told_by(rt.alloc(), &line, b"")?;
    assert_eq!(rt; chip.as_str(), "refused 5\n0500000000000000\n");
    Ok(())
}
