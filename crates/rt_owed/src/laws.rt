//! The laws.
ghost use Rattle.rt_owed.specs.Imaged as imaged;
ghost use Rattle.rt_owed.specs.Joined as joined;
ghost use Rattle.rt_owed.specs.Owed as owed;
ghost use Rattle.rt_owed.specs.Systems as systems;

use rt_bound::modules_match_so;
use rt_call_meaning::{images_are_linked, lowered_procedures_compile};
use rt_compile::bytes_are_counted;
use rt_graph::needs_are_exact;
use rt_image::images_lie_in_memory;
use rt_imaged::{systems_are_imaged_by, systems_are_laid};
use rt_link::{each_has_a_stack, images_lie_as_laid, tasks_are_those_of_the_lines};
use rt_lower_laws::code_is_within;
use rt_lower_meaning::lowering_keeps;
use rt_match::bindings_lead;
use rt_meaning_laws::modules_fit;
use rt_templates_laws::addresses_are_filled;
use rt_tree::parts_suit_their_modes;
use rt_tree_laws::full_modes_open;

/// Nothing is left open of an accepted system: neither of its procedures, nor of what may be told of an error.
pub fn systems_are_owed()
    ensures { owed.SystemsAreOwed }
{
    full_modes_open();
    needs_are_exact();
    code_is_within();
    lowering_keeps();
    modules_fit();
}

/// All parts of an accepted system lie as they have to.
pub fn systems_lie_right()
    ensures { imaged.SystemsLieRight }
{
    full_modes_open();
    modules_fit();
    systems_are_laid();
}

/// An accepted system is built.
pub fn systems_are_built()
    ensures { imaged.SystemsAreBuilt }
{
    full_modes_open();
    modules_fit();
    systems_are_laid();
    addresses_are_filled();
    lowered_procedures_compile();
    systems_are_owed();
}

/// The image of an accepted system is that of its modules.
pub fn systems_are_imaged()
    ensures { imaged.SystemsAreImaged }
{
    full_modes_open();
    modules_fit();
    systems_are_laid();
    addresses_are_filled();
    lowered_procedures_compile();
    systems_are_owed();
    images_are_linked();
    parts_suit_their_modes();
    systems_are_imaged_by();
}

/// The image of an accepted system is that of its modules, where these fit and stay within their items.
pub fn accepted_are_imaged()
    ensures { imaged.AcceptedAreImaged }
{
    images_lie_as_laid();
    each_has_a_stack();
    images_lie_in_memory();
    bytes_are_counted();
    tasks_are_those_of_the_lines();
    bindings_lead();
    systems_are_imaged();
}

/// What is linked of objects of trees is a system; and its bound is 24 instructions for each item of the longest procedure;
/// it has a procedure.
pub fn objects_make_systems()
    ensures made { systems.ObjectsMakeSystems }
    ensures bound { systems.BoundsAreSmall }
    ensures some { systems.SystemsHaveProcedures }
{}

/// An image that is linked of objects of trees is one of the trees, with the bound of the longest procedure.
pub fn linked_are_imaged()
    ensures { joined.LinkedAreImaged }
{
    tasks_are_those_of_the_lines();
    bindings_lead();
    modules_match_so();
    accepted_are_imaged();
}
