//! The laws, as the contracts of functions that do nothing.

ghost use Rattle.rt_compile_laws.specs.Faults.{TextsHaveOneFault};
ghost use Rattle.rt_compile_laws.specs.Long.{LongCodeIsLarge, LongTextsAreLarge, SupportIsSmall};
ghost use Rattle.rt_compile_laws.specs.Objects.{FittingTreesAreCompiled, TextsAreCompiled};

use rt_bricks::one_module;
use rt_check::one_tree;
use rt_check_laws::each_module_is_judged;
use rt_compile::one_object;
use rt_items::one_reading;
use rt_lower_laws::code_is_within;
use rt_sizes_laws::modes_have_sizes;
use rt_templates_laws::support_is_short;
use rt_text_laws::trees_promise;

/// A tree of which every node fits, and whose records can be told apart and don't contain themselves, has an object, or a procedure
/// whose code is too long.
pub fn fitting_trees_are_compiled()
    ensures { FittingTreesAreCompiled }
{
    modes_have_sizes();
}

/// So has the tree of each text.
pub fn texts_are_compiled()
    ensures { TextsAreCompiled }
{
    fitting_trees_are_compiled();
    trees_promise();
}

/// Where a module is within, a procedure whose code is too long has more than 1,363 items.
pub fn long_code_is_large()
    ensures { LongCodeIsLarge }
{
    code_is_within();
}

/// So has one for whose code a text is refused.
pub fn long_texts_are_large()
    ensures { LongTextsAreLarge }
{
    long_code_is_large();
    trees_promise();
}

/// The support code has at most 2,048 bytes.
pub fn support_is_small()
    ensures { SupportIsSmall }
{
    support_is_short();
}

/// A text has one fault: of its items, else of the grammar, else of the checker, else of its code.
pub fn texts_have_one_fault()
    ensures { TextsHaveOneFault }
{
    one_reading();
    one_module();
    one_tree();
    each_module_is_judged();
    one_object();
}
