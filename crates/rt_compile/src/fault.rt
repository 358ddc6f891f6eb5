//! Why a text has no object.

use rt_check::ModuleFault;
use rt_check_faults::CheckFault;
use rt_items::TextFault;
use rt_templates::ExpandFault;
use rt_words::Name;
use thiserror::Error;

/// The first fault of a text: of its items, else of the grammar, else the one that counts for the checker, else of its code.
#[derive(Debug, Drop, Error)]
pub enum CompileFault {
    #[error("out of memory")]
    Memory,
    /// The text has no items.
    #[error("{0}")]
    Text(TextFault),
    /// The items are no module.
    #[error("syntax error in line {line}")]
    Syntax { line: u32 },
    /// A fault stands in the module.
    #[error("{0}")]
    Check(CheckFault),
    /// The code of this procedure, the first such, has more than 16,383 words.
    #[error("the code of a procedure is too long")]
    ProcTooLong { proc: Name },
    /// The object of the text doesn't keep the ranges of objects. It isn't known whether there is such a text.
    #[error("the object is out of range")]
    Beyond,
}

impl From<rt_words::Memory> for CompileFault {
    ghost use Rattle.std.specs.Prelude.{◌≡◌};
    ghost use Rattle.rt_compile.specs.declared.fault.CompileFault.TheVariants as fault;

    ghost from_gives = { λ memory made. made ≡ fault.Memory };

    fn from(_memory: rt_words::Memory) -> CompileFault {
        CompileFault::Memory
    }
}

impl From<ModuleFault> for CompileFault {
    ghost use Rattle.std.specs.Prelude.{◌≡◌};
    ghost use Rattle.rt_compile.specs.Texts.{of_module};

    ghost from_gives = { λ fault made. made ≡ of_module fault };

    fn from(fault: ModuleFault) -> CompileFault {
        match fault {
            ModuleFault::Memory => CompileFault::Memory,
            ModuleFault::Text(fault) => CompileFault::Text(fault),
            ModuleFault::Syntax { line } => CompileFault::Syntax { line },
            ModuleFault::Check(fault) => CompileFault::Check(fault),
        }
    }
}

impl From<ExpandFault> for CompileFault {
    ghost use Rattle.std.specs.Prelude.{◌≡◌};
    ghost use Rattle.rt_compile.specs.Texts.{of_code};

    ghost from_gives = { λ fault made. made ≡ of_code fault };

    fn from(fault: ExpandFault) -> CompileFault {
        match fault {
            ExpandFault::ProcTooLong { proc } => CompileFault::ProcTooLong { proc },
            ExpandFault::Memory => CompileFault::Memory,
        }
    }
}
