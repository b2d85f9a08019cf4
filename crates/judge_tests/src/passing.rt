// Traces that pass.
use crate::small::told;
use std::test::Fail;

#[test]
fn five_activates_that_keep_the_window(rt: HostRuntime) -> Result<(), Fail> {
    let text = told(
        rt.alloc(),
        b"00000001100007000000000000\n00000003110007000000000000\n00000005120007000000000000\n00000007130007000000000000\n0000000D140007000000000000\n",
    )?;
    assert_eq!(rt; text.as_str(), "passes: 5 commands\n0000000000000005\n");
    Ok(())
}

#[test]
fn an_empty_trace_and_one_of_one_line(rt: HostRuntime) -> Result<(), Fail> {
    let none = told(rt.alloc(), b"")?;
    assert_eq!(rt; none.as_str(), "passes: 0 commands\n0000000000000000\n");
    let one = told(rt.alloc(), b"00000000100007000000000000\n")?;
    assert_eq!(rt; one.as_str(), "passes: 1 commands\n0000000000000001\n");
    Ok(())
}
