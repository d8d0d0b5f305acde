//! A unit, its fronts, and texts that break one rule.

use crate::{CFault, read_c};
use std::test::Fail;

const UNIT: &str = "long v_x = 0L;
void f0(void) { v_x = 0L; }
void set_x(long a) { f0(); v_x = a; }
";

#[test]
fn reads_a_unit(rt: HostRuntime) -> Result<(), Fail> {
    let unit = read_c(rt.alloc(), UNIT.as_bytes()).map_err(|_| "no unit")?;
    assert_eq!(rt; unit.items.len(), 3);
    Ok(())
}

#[test]
fn refuses_an_item_that_has_no_end(rt: HostRuntime) -> Result<(), Fail> {
    let fronts = [
        ("long v_x = 0L", 1),
        ("long v_x = 0L;\nvoid f0(void) { v_x =", 2),
        (
            "long v_x = 0L;\nvoid f0(void) { v_x = 0L; }\nvoid set_x(long a) {\nf0();",
            3,
        ),
    ];
    for (front, line) in fronts {
        let fault = read_c(rt.alloc(), front.as_bytes()).err();
        assert_eq!(rt; fault, Some(CFault::Refused(line)));
    }
    Ok(())
}

#[test]
fn refuses_a_call_before_the_function(rt: HostRuntime) -> Result<(), Fail> {
    let text = "long v_x = 0L;\nvoid f1(void) { f0(); }\nvoid f0(void) { v_x = 0L; }\n";
    let fault = read_c(rt.alloc(), text.as_bytes()).err();
    assert_eq!(rt; fault, Some(CFault::Refused(2)));
    Ok(())
}

#[test]
fn tells_the_line_of_the_token_behind_space(rt: HostRuntime) -> Result<(), Fail> {
    let text = "long v_x = 0L;\n\n/* two\nlines */ v_x";
    let fault = read_c(rt.alloc(), text.as_bytes()).err();
    assert_eq!(rt; fault, Some(CFault::Refused(4)));
    Ok(())
}
