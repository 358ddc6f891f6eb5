//! Procedures, as they are told.

use rt_graph::Proc;
use rt_modes::SUPPLIED;
use rt_object::Object;
use rt_words::{Memory, Text};

/// Appends procedures, with a space between.
pub fn tell_procs(objects: &[Object], procs: &[Proc], out: &mut Text) -> Result<(), Memory> {
    for (number, of) in procs.iter().enumerate() {
        if number > 0 {
            out.push(b' ')?;
        }
        tell_proc(objects, *of, out)?;
    }
    Ok(())
}

/// Appends the title and the name of a procedure; of a supplied one the name alone.
pub fn tell_proc(objects: &[Object], of: Proc, out: &mut Text) -> Result<(), Memory> {
    for supplied in &SUPPLIED {
        if of.module == 0 && of.brick == u16::from(supplied.number()) {
            out.push_all(supplied.name().as_bytes())?;
        }
    }
    match objects.get(usize::from(of.module).wrapping_sub(1)) {
        Some(object) => tell_own(object, usize::from(of.brick), out),
        None => Ok(()),
    }
}

fn tell_own(object: &Object, brick: usize, out: &mut Text) -> Result<(), Memory> {
    let parts = object.parts();
    out.push_all(parts.title.as_slice())?;
    out.push(b'.')?;
    match parts.bricks.get(brick) {
        Some(brick) => out.push_all(brick.name.as_slice()),
        None => Ok(()),
    }
}
