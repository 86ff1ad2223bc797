// What the program prints for bytes in memory.
use runs::run;
use std::alloc::Global;
use std::io;
use std::io::BufReader;
use std::process::Abort;
use std::str::from_utf8;
use std::test::Fail;

// What is printed for an input that is handed out so many bytes at a time.
pub fn printed(heap: Global, input: &[u8], size: usize) -> io::Result<Vec<u8>> {
    let reader = BufReader::with_capacity(heap, size, input)?;
    let mut output = Vec::new(heap);
    run(heap, reader, &mut output)?;
    Ok(output)
}

fn compare_in_pieces(
    rt: &impl Abort,
    heap: Global,
    input: &[u8],
    expected: &str,
    size: usize,
) -> Result<(), Fail> {
    let output = printed(heap, input, size)?;
    assert_eq!(rt;
        from_utf8(&output)?,
        expected,
        "{size} bytes at a time: {}",
        input.escape_ascii()
    );
    Ok(())
}

// Compares all that is printed with what is expected, for the input at once and in pieces of a few bytes.
pub fn compare(rt: &impl Abort, heap: Global, input: &[u8], expected: &str) -> Result<(), Fail> {
    for size in [65_536, 7, 1] {
        compare_in_pieces(rt, heap, input, expected, size)?;
    }
    Ok(())
}
