//! What the declarations of a module say, outside of what bricks hold.

ghost use Rattle.std.specs.Prelude.{◌≡◌, IfOk};
ghost use Rattle.rt_check_module.specs.Levels.{module_names};
ghost use Rattle.rt_check_declared.specs.Records.{Counts};
ghost use Rattle.rt_sizes.specs.Capped.{AreSizes};
ghost use Rattle.rt_check_declared.specs.Names as known;
ghost use Rattle.rt_check_module.specs.Tree as spec;
ghost use Rattle.rt_check_module.specs.Scenes.{StandsOutside};

use crate::{mode_level, module_level};
use rt_bricks::Declaration;
use rt_check_declared::{Heading, declared_names, either, read_bricks, read_records};
use rt_check_faults::CheckFault;
use rt_exprs::{IndexedRecords, Level};
use rt_modes::ModeTable;
use rt_sizes::Size;
use rt_words::{List, Memory};
use std::alloc::Global;

/// What the declarations of a module say.
#[derive(Drop)]
pub struct Scene<'m> {
    /// The records; a field whose mode can't be known has LABEL.
    pub modes: IndexedRecords,
    /// The size of each record, where it has one.
    pub sizes: List<Option<Size>>,
    /// The bricks as they are declared.
    pub bricks: List<Heading>,
    /// The names of the module, and what they stand for.
    pub level: Level<'m>,
    /// The fault that counts of names, MODEs and headings.
    pub fault: Option<CheckFault>,
}

/// What the declarations of a module say, or want of memory.
pub fn read_scene<'m>(alloc: Global, declarations: &'m [Declaration]) -> Result<Scene<'m>, Memory>
    ensures records { IfOk result (λ s. s.modes.records ≡ (spec.records declarations.now).records) }
    ensures sizes { IfOk result (λ s. AreSizes (spec.records declarations.now) s.sizes) }
    ensures bricks { IfOk result (λ s. s.bricks ≡ spec.headings declarations.now) }
    ensures level { IfOk result (λ s. s.level ≡ module_names s.bricks (known.scope declarations.now)) }
    // The fault that counts; there is none only where none stands.
    ensures fault { IfOk result (λ s. Counts (StandsOutside declarations.now) s.fault) }
{
    let names = declared_names(alloc, declarations)?;
    let modes_seen = [mode_level(alloc, &names)?];
    let records = read_records(alloc, declarations, &modes_seen)?;
    let bricks = read_bricks(alloc, declarations, &modes_seen)?;
    let fault = either(either(names.fault, records.fault), bricks.fault);
    let bricks = bricks.bricks;
    let level = module_level(alloc, &names, bricks.as_slice())?;
    let table = ModeTable {
        records: records.records,
    };
    let modes = IndexedRecords::new(alloc, table)?;
    Ok(Scene {
        modes,
        sizes: records.sizes,
        bricks,
        level,
        fault,
    })
}
