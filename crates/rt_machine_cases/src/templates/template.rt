//! The template of one instruction, in the procedure of the cases.

use rt_icode::{Ins, words};
use rt_templates::{Layout, ProcCode, put_template};
use rt_words::{List, Memory};
use std::alloc::Global;

/// The template of an instruction, as instruction 2 of this procedure. Nothing where it is longer than a procedure may be.
pub fn template_of(alloc: Global, ins: &Ins) -> Result<ProcCode, Memory> {
    let layout = layout(alloc)?;
    template_in(alloc, &layout, ins)
}

fn template_in(alloc: Global, layout: &Layout, ins: &Ins) -> Result<ProcCode, Memory> {
    let mut code = ProcCode::new(alloc)?;
    if words(ins) <= 16383 {
        put_template(&mut code, layout, 2, ins)?;
    }
    Ok(code)
}

// The layout of the procedure whose instruction 2 is told or run.
fn layout(alloc: Global) -> Result<Layout, Memory> {
    let starts = [0, 0o100, 0o200, 0o300, 0o400, 0o500, 0o600];
    Ok(Layout {
        brick: 1,
        parameters: 2,
        locals: 6,
        starts: List::from_slice(alloc, &starts)?,
    })
}
