//! The modules of a system as the meaning reads them.

ghost use Rattle.std.specs.Prelude.{◌≡◌, Some};
ghost use Rattle.std.specs.Option.{option_copied};
ghost use Rattle.rt_work_state.specs.Stores as stores;
ghost use Rattle.rt_resolve.specs.World as world;

use rt_tree::Proc;
use rt_words::List;
use rt_work_state::{Body, Env};

/// A procedure that has a body.
#[derive(Drop)]
pub struct Code {
    pub body: Body,
    /// How many locals, parameters among them.
    pub size: usize,
    /// The bound of its recursion; 0 where it has none.
    pub most: u16,
}

/// A module.
#[derive(Drop)]
pub struct ModuleCode {
    pub env: Env,
    /// For each brick its code, where it is a procedure with a body.
    pub codes: List<Option<Code>>,
}

/// The module of a number, from 1.
pub fn module_at(modules: &List<ModuleCode>, number: u16) -> Option<&ModuleCode>
    ensures { option_copied result ≡ stores.numbered modules.now number }
{
    if number == 0 {
        None
    } else {
        modules.get(usize::from(number) - 1)
    }
}

fn body_of(module: &ModuleCode, brick: u16) -> Option<&Code>
    ensures { world.code_in (Some (option_copied result)) ≡ world.codes_in (Some module.now) brick }
{
    match module.codes.get(usize::from(brick)) {
        Some(Some(code)) => Some(code),
        Some(None) => None,
        None => None,
    }
}

/// The code of a procedure, where it has a body.
pub fn code_of(modules: &List<ModuleCode>, f: Proc) -> Option<&Code>
    ensures { world.code_in (Some (option_copied result)) ≡ (world.world modules.now).code f }
{
    match module_at(modules, f.module) {
        Some(module) => body_of(module, f.brick),
        None => None,
    }
}
