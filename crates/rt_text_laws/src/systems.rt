//! The laws of systems, as the contracts of functions that do nothing.

ghost use Rattle.rt_text_laws.specs.Systems.{FittingModulesPromise, ListsHaveTexts, TextsPromiseAll};

use crate::trees::trees_promise;
use rt_meaning_laws::modules_fit;
use rt_tree_laws::full_data_open;

/// A system of modules that fit fits, its modes are sound, and its tables are known.
pub fn fitting_modules_promise()
    ensures { FittingModulesPromise }
{
    modules_fit();
}

/// Modules that have texts one by one all have.
pub fn lists_have_texts()
    ensures { ListsHaveTexts }
{}

/// What the modules of texts have, and what they have where they match.
pub fn texts_promise()
    ensures { TextsPromiseAll }
{
    trees_promise();
    fitting_modules_promise();
    full_data_open();
}
