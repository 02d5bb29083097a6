// What is printed after a settle.

use crate::equal::is_equal;
use crate::look::look_at;
use mc_table::print_settle;
use mc_text::Names;
use std::alloc::{AllocError, Global};
use std::process::Abort;

// What is printed for settle 12, of no paths.
fn is_settle_line<R: Abort>(context: (&R, Global), names: &mut Names) -> Result<(), AllocError> {
    let (rt, alloc) = context;
    let text = print_settle(alloc, names, 12, &[])?;
    is_equal(rt, &text.as_slice(), &b"settle 12\n".as_slice());
    Ok(())
}

#[test]
fn a_settle_without_paths_is_its_line(rt: HostRuntime) -> Result<(), AllocError> {
    let names = Names::new(rt.alloc());
    look_at((&rt, rt.alloc()), names, is_settle_line)
}
