//! The laws, as the contracts of functions that do nothing.

ghost use Rattle.rt_sizes_laws.specs.Laws as law;
ghost use Rattle.rt_sizes_laws.specs.Decided as decided;

use rt_tree_laws::{full_data_open, full_modes_open};

/// By one module's records a mode and a record have at most one size, a field begins at most at one place, and fields have at
/// most one end.
pub fn tables_tell_once()
    ensures { law.TablesTellOnce }
{}

/// Two modes, of two modules, of one full mode have one size, and so have their elements, if they are arrays.
pub fn full_modes_have_one_size()
    ensures sizes { law.FullModesHaveOneSize }
    ensures records { law.RecordsHaveOneSize }
    ensures elements { law.ElementsHaveOneSize }
{
    full_modes_open();
}

/// The fields of two records of one full mode, and the items of two data bricks of one full mode, begin at the same places.
pub fn fields_lie_alike()
    ensures records { law.RecordsLieAlike }
    ensures items { law.DataLieAlike }
    ensures fields { law.FieldsLieAlike }
{
    full_modes_open();
    full_data_open();
}

/// A path of fields and elements leads on from two modes of one full mode to modes of one full mode and one size.
pub fn paths_lead_alike()
    ensures { law.PathsLeadAlike }
{
    full_modes_open();
}

/// A mode that may stand has a size just where no record that is in its values contains itself, if all records are known.
pub fn modes_have_sizes()
    ensures modes { law.ModesHaveSizes }
    ensures only { law.SizesHaveNoRing }
    ensures fields { law.FieldsHavePlaces }
    ensures rings { law.NoRings }
    ensures known { law.WholeListsAreKnown }
{}

/// Of each mode it can be told whether it has a size, of fields whether they pass the greatest size and with which, which is
/// one, and of two records whether the first contains the second.
pub fn sizes_are_decided()
    ensures sizes { decided.SizesAreDecided }
    ensures passes { decided.PassesAreDecided }
    ensures one { decided.OnePasses }
    ensures rings { decided.RingsAreDecided }
{}
