//! Names of a scope, and the numbers of strings.

ghost use Rattle.std.specs.Prelude.{◌≡◌};
ghost use Rattle.std.specs.Option.{option_copied};
ghost use Rattle.rt_exprs.specs.Names as spec;
ghost use Rattle.rt_exprs.specs.Operands.{seen, judged_of, named};
ghost use Rattle.rt_check_faults.specs.Outcomes.{Gives};

use crate::level::Level;
use crate::numbers::small_number;
use crate::operand::{Meant, Operand, Standing};
use crate::scope::{Meaning, Scope};
use rt_check_faults::CheckFault;
use rt_grammar::At;
use rt_tree_nodes::Place;

/// What a name stands for in the innermost level that has it; the levels stand innermost first.
#[tactic(auto, unfolding(crate::specs::Names::find_in))]
pub fn find_name<'a>(levels: &'a [Level<'_>], name: &[u8]) -> Option<&'a Meaning>
    ensures { option_copied result ≡ spec.find_in levels.now name.now }
{
    for level in levels {
        if let Some(meaning) = level.get(name) {
            return Some(meaning);
        }
    }
    None
}

/// What a name stands for at a place.
pub fn find<'a>(scope: &Scope<'a>, name: &[u8]) -> Option<&'a Meaning>
    ensures { option_copied result ≡ spec.find scope.now name.now }
{
    find_name(scope.levels(), name)
}

/// What a name is by itself, if it stands at this place.
pub fn name_at<'a>(meaning: Option<&'a Meaning>, at: At) -> Result<Meant<'a>, CheckFault>
    ensures { Gives seen result (named at (option_copied meaning.entry)) }
{
    match meaning {
        None => Err(CheckFault::UnknownName(at)),
        Some(meaning) => match meaning {
            Meaning::Proc(brick, mode) => Ok(Meant::Brick(*brick, mode)),
            Meaning::Item(brick, item, mode) => {
                Ok(Meant::Place(Place::Item(*brick, *item), mode, Standing::Shared))
            }
            Meaning::SvcItem(brick, item, mode) => {
                Ok(Meant::Place(Place::Item(*brick, *item), mode, Standing::Private))
            }
            Meaning::Svc(item, mode) => {
                if *item == 0 {
                    return Err(CheckFault::LeftOut { form: 2, at });
                }
                Ok(Meant::Place(Place::Svc(*item), mode, Standing::Private))
            }
            Meaning::Local(local, mode) => {
                Ok(Meant::Place(Place::Local(*local), mode, Standing::Private))
            }
            Meaning::Loop(local) => Ok(Meant::Loop(*local)),
            Meaning::UnknownProc | Meaning::Unknown => Err(CheckFault::Unknown),
            _ => Err(CheckFault::WrongMode(at)),
        },
    }
}

/// The string that begins at an item.
pub fn text_at<'a>(scope: &Scope<'a>, at: At) -> Result<Operand<'a>, CheckFault>
    ensures { Gives judged_of result (spec.text_at scope.now at) }
{
    match scope.string_at(at.item) {
        Some(number) => Ok(Operand {
            at,
            is: Meant::Text(small_number(number)?),
            known: true,
        }),
        None => Err(CheckFault::WrongMode(at)),
    }
}
