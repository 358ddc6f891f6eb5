//! What can be wrong with the text of a module.

use rt_check_faults::CheckFault;
use rt_items::TextFault;
use rt_syntax::SyntaxFault;
use thiserror::Error;

/// The first fault of a module's text: of its items, else of the grammar, else the one that counts for the checker.
#[derive(Debug, Drop, Error)]
pub enum ModuleFault {
    #[error("out of memory")]
    Memory,
    /// The text has no items.
    #[error("{0}")]
    Text(TextFault),
    /// The items are no module.
    #[error("syntax error in line {line}")]
    Syntax { line: u32 },
    /// A fault stands in the module.
    #[error("{0}")]
    Check(CheckFault),
}

impl From<TextFault> for ModuleFault {
    ghost use Rattle.std.specs.Prelude.{◌≡◌};
    ghost use Rattle.rt_check.specs.Faults.{of_text};

    ghost from_gives = { λ fault made. made ≡ of_text fault };

    fn from(fault: TextFault) -> ModuleFault {
        match fault {
            TextFault::Memory => ModuleFault::Memory,
            _ => ModuleFault::Text(fault),
        }
    }
}

impl From<SyntaxFault> for ModuleFault {
    ghost use Rattle.std.specs.Prelude.{◌≡◌};
    ghost use Rattle.rt_check.specs.Faults.{of_syntax};

    ghost from_gives = { λ fault made. made ≡ of_syntax fault };

    fn from(fault: SyntaxFault) -> ModuleFault {
        match fault {
            SyntaxFault::Memory => ModuleFault::Memory,
            SyntaxFault::Syntax { line, .. } => ModuleFault::Syntax { line },
        }
    }
}

impl From<CheckFault> for ModuleFault {
    ghost use Rattle.std.specs.Prelude.{◌≡◌};
    ghost use Rattle.rt_check.specs.Faults.{of_check};

    ghost from_gives = { λ fault made. made ≡ of_check fault };

    fn from(fault: CheckFault) -> ModuleFault {
        match fault {
            CheckFault::Memory => ModuleFault::Memory,
            _ => ModuleFault::Check(fault),
        }
    }
}
