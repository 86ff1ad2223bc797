// Lines that are lent to the program one by one.
use counter::InMemory;
use runs::Program;
use std::test::Fail;

#[test]
fn a_lent_line_is_answered(rt: HostRuntime) -> Result<(), Fail> {
    let heap = rt.alloc();
    let mut program = Program::new(heap, Vec::new(heap));
    let mut printed = String::new(heap);
    for line in ["store 1 10 0 3", "state", "slots", "slot"] {
        if let Some(text) = program.step(heap, line.as_bytes(), &mut InMemory)? {
            printed.push_str(&text)?;
            printed.push('\n')?;
        }
    }
    assert_eq!(rt; printed.as_str(), "store 1 10 0 3\n5 2\nslot 1 10\n");
    Ok(())
}
