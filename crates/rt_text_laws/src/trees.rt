//! The laws of one module, as the contracts of functions that do nothing.

ghost use Rattle.rt_text_laws.specs.Trees.{ItemsAreRanged, TreesPromise};

use rt_bricks_laws::names_are_words;
use rt_check_module_laws::{
    data_items_are_fields, modules_fit, modules_stay_within, records_are_tables,
};
use rt_meaning_sound::{modules_are_named, numbers_fit};

/// Each item of a text is as large as an item may be, whatever numbers stand for the text's bytes.
pub fn items_are_ranged()
    ensures { ItemsAreRanged }
{
    names_are_words();
}

/// In the typed tree of a text each node fits and numbers are those of their types; records can be told apart, and each has a field;
/// items of data have names that differ; procedures stay within what procedures may take, recover nowhere, and have 6 items or more,
/// and fewer than 65,536; their parameters are among their locals, and locals are named only where they have a value.
pub fn trees_promise()
    ensures { TreesPromise }
{
    items_are_ranged();
    names_are_words();
    numbers_fit();
    modules_are_named();
    modules_fit();
    modules_stay_within();
    records_are_tables();
    data_items_are_fields();
}
