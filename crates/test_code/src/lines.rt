//! Lines and texts that are put into a sink.
use dap_base::{MemorySink, OutOfMemory};
use std::test::Fail;
use text_lines::{Line, TextError, put_line, put_text};

#[test]
fn a_line_is_put_or_nothing_of_it(rt: HostRuntime) -> Result<(), Fail> {
    let alloc = rt.alloc();
    let line = Line::begin(alloc, "a line\n")?;
    let mut sink = MemorySink::new(alloc, &[2])?;
    assert_eq!(rt; put_line(Ok(line), &mut sink), Ok(()));
    assert_eq!(rt; put_text(b"more", &mut sink), Err(TextError::Failed));
    // No memory for a line: nothing is put.
    assert_eq!(rt;
        put_line(Err(OutOfMemory), &mut sink),
        Err(TextError::OutOfMemory)
    );
    assert_eq!(rt; sink.bytes(), b"a line\n".as_slice());
    Ok(())
}
