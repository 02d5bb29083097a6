// That memory is found where there is some.
use crate::top::is_equal;
use mc_io::{MemSink, MemSource, read_up_to, write_whole};
use std::test::Fail;

#[test]
fn a_text_goes_through_memory(rt: HostRuntime) -> Result<(), Fail> {
    let alloc = rt.alloc();
    let bytes = Vec::from_slice(alloc, b"settle 1\n")?;
    let mut source = MemSource::new(bytes, 4, Vec::new(alloc));
    let text = read_up_to(alloc, &mut source, 64)?;
    let mut sink = MemSink::new(alloc, 64, 4, Vec::new(alloc))?;
    write_whole(&mut sink, &text)?;
    is_equal(&rt, &sink.bytes.as_slice(), &b"settle 1\n".as_slice());
    Ok(())
}
