//! A system of typed modules, as the meaning runs it.

ghost use Rattle.std.specs.Prelude.{◌≡◌, ◌≤◌, true, false, All, Any, IfOk, length, map};
ghost use Rattle.std.specs.List.{list_all};
ghost use Rattle.rt_tree_nodes.specs.Code as seen;
ghost use Rattle.rt_tree.specs.Modules.{is_short};
ghost use Rattle.rt_resolve.specs.World as world;
ghost use Rattle.rt_resolve.specs.Starting as starting;
ghost use Rattle.rt_resolve.specs.Systems as systems;

use crate::bindings::bounds;
use crate::code::{Code, ModuleCode};
use crate::share::push_made;
use crate::starting::{Home, bricks_contents, texts_contents};
use crate::statements::body;
use rt_tree::{Brick, BrickSort, ProcBody, Scope, TypedModule};
use rt_words::{Bytes, List, Memory};
use rt_work_state::{Body, Env, ModuleStore};
use std::alloc::Global;

/// What a system begins with: what its tasks read of its modules, and its starting store.
#[derive(Drop)]
pub struct System {
    pub modules: List<ModuleCode>,
    pub store: List<ModuleStore>,
}

// What one of its modules begins with.
#[derive(Drop)]
struct OneModule {
    code: ModuleCode,
    store: ModuleStore,
}

/// Whether the bricks of each module can be numbered in words.
pub fn are_numbered(modules: &[TypedModule]) -> bool
    ensures yes { result ≡ true → All systems.IsNumbered modules.now }
    ensures no { result ≡ false → Any systems.IsOverfull modules.now }
{
    for module in modules {
        if module.bricks().len() > 65536 {
            return false;
        }
    }
    true
}

// The lengths of strings.
fn text_lengths(alloc: Global, strings: &[Bytes]) -> Result<List<u16>, Memory>
    requires { list_all is_short strings.now ≡ true }
    ensures { IfOk result (λ ns. ns ≡ map starting.text_length strings.now) }
{
    let mut made = List::new(alloc, strings.len())?;
    for bytes in strings {
        made.push(bytes.len() as u16)?;
    }
    Ok(made)
}

fn procedure_code(alloc: Global, scope: &Scope<'_>, procedure: &ProcBody) -> Result<Code, Memory>
    ensures { IfOk result (λ c. world.code c ≡ systems.procedure_code (seen.scope scope.now) procedure.now) }
{
    let inner = scope.with_locals(procedure.locals.as_slice());
    let tree = body(alloc, &inner, &procedure.body)?;
    Ok(Code {
        body: Body::new(alloc, tree)?,
        size: procedure.locals.len(),
        most: procedure.most,
    })
}

fn brick_code(alloc: Global, scope: &Scope<'_>, brick: &Brick) -> Result<Option<Code>, Memory>
    ensures { IfOk result (λ c. systems.code_held c ≡ systems.brick_code (seen.scope scope.now) brick.now) }
{
    match &brick.sort {
        BrickSort::Proc(_, procedure) => match procedure {
            Some(procedure) => Ok(Some(procedure_code(alloc, scope, procedure)?)),
            None => Ok(None),
        },
        _ => Ok(None),
    }
}

// For each brick its code, where it is a procedure with a body.
fn codes(alloc: Global, scope: &Scope<'_>, bricks: &[Brick]) -> Result<List<Option<Code>>, Memory>
    ensures { IfOk result (λ cs. map systems.code_held cs ≡ map (systems.brick_code (seen.scope scope.now)) bricks.now) }
{
    let mut made = List::new(alloc, bricks.len())?;
    for brick in bricks {
        push_made(&mut made, brick_code(alloc, scope, brick))?;
    }
    Ok(made)
}

#[tactic(auto, using(crate::proofs::Worlds::strings_short))]
fn resolve_one(
    alloc: Global,
    modules: &[TypedModule],
    number: u16,
    module: &TypedModule,
) -> Result<OneModule, Memory>
    requires few { length modules.now ≤ 64 }
    requires numbered { All systems.IsNumbered modules.now }
    requires words { systems.IsNumbered «module».now }
    ensures code { IfOk result (λ one. systems.held one.code ≡ systems.resolved modules.now number «module».now) }
    ensures store { IfOk result (λ one. one.store ≡ starting.module_store modules.now number «module».now) }
{
    let parts = module.parts();
    let bricks = parts.bricks.as_slice();
    let strings = parts.strings.as_slice();
    let scope = Scope::of(parts);
    let leads = bounds(alloc, modules, number, bricks)?;
    let texts = text_lengths(alloc, strings)?;
    let home = Home {
        scope,
        texts: texts.as_slice(),
        number,
        leads: leads.as_slice(),
    };
    let store = ModuleStore {
        bricks: bricks_contents(alloc, &home, bricks)?,
        texts: texts_contents(alloc, strings)?,
    };
    let codes = codes(alloc, &scope, bricks)?;
    let env = Env {
        module: number,
        bricks: leads,
        texts,
    };
    Ok(OneModule {
        code: ModuleCode { env, codes },
        store,
    })
}

// The modules one after the other.
fn resolve_all(alloc: Global, modules: &[TypedModule]) -> Result<System, Memory>
    requires few { length modules.now ≤ 64 }
    requires numbered { All systems.IsNumbered modules.now }
    ensures codes { IfOk result (λ s. map systems.held s.modules ≡ systems.system modules.now) }
    ensures store { IfOk result (λ s. s.store ≡ starting.starting_store modules.now) }
{
    let mut codes = List::new(alloc, modules.len())?;
    let mut store = List::new(alloc, modules.len())?;
    for at in 0..modules.len() {
        let one = resolve_one(alloc, modules, at as u16 + 1, &modules[at])?;
        codes.push(one.code)?;
        store.push(one.store)?;
    }
    Ok(System {
        modules: codes,
        store,
    })
}

/// What a system of these modules begins with.
#[tactic(auto, using(crate::proofs::Worlds::world_there))]
pub fn resolve(alloc: Global, modules: &[TypedModule]) -> Result<System, Memory>
    requires few { length modules.now ≤ 64 }
    requires numbered { All systems.IsNumbered modules.now }
    ensures world { IfOk result (λ s. world.world s.modules ≡ systems.world modules.now) }
    ensures store { IfOk result (λ s. s.store ≡ starting.starting_store modules.now) }
{
    let system = resolve_all(alloc, modules)?;
    Ok(system)
}
