//! Laws of what is compiled of texts, as the contract of a function that only calls others of its kind.

ghost use Rattle.rt_compile.specs.Laws as laws;

use rt_bricks::one_module;
use rt_check::one_tree;
use rt_items::one_reading;
use rt_sizes_laws::tables_tell_once;

/// A text has one object at most, two texts of one tree have the same, and a text has none where the code of a procedure is too long; the
/// first such procedure is one.
pub fn one_object()
    ensures one { laws.OneObject }
    ensures tree { laws.OneOfTree }
    ensures none { laws.NoneWithLongCode }
    ensures long { laws.OneLongCode }
{
    one_reading();
    one_module();
    one_tree();
    tables_tell_once();
}
