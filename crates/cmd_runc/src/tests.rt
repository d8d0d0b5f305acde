//! A unit of two objects and a setter, by lines of calls.

use crate::{Taken, push_objects, take_line};
use base_script::ScriptKind;
use c_machine::Machine;
use c_reader::read_c;
use std::test::Fail;

const UNIT: &str = "long v_x = 0L; long o_x = 0L;
void set_x(long a) { v_x = v_x + a; }
";

#[test]
fn takes_calls_and_shows_the_objects(rt: HostRuntime) -> Result<(), Fail> {
    let unit = read_c(rt.alloc(), UNIT.as_bytes()).map_err(|_| "no unit")?;
    let mut machine = Machine::new(rt.alloc(), &unit).map_err(|_| "no memory")?;
    assert_eq!(rt; take_line(&mut machine, b"# none"), Taken::Nothing);
    assert_eq!(rt;
        take_line(&mut machine, b" set_x 02147483647 #"),
        Taken::Called
    );
    assert_eq!(rt; take_line(&mut machine, b"set_x 1"), Taken::Overflow);
    assert_eq!(rt;
        take_line(&mut machine, b"set_y 1"),
        Taken::Faulty(ScriptKind::Unknown)
    );
    let mut out = Vec::new(rt.alloc());
    push_objects(&mut out, &unit, 1, machine.objects()).map_err(|_| "no memory")?;
    assert_eq!(rt; out.as_slice(), b"1 v_x=2147483647\n".as_slice());
    Ok(())
}
