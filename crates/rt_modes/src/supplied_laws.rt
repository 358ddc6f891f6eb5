//! Laws of the supplied bricks, as the contracts of functions that do nothing.

ghost use Rattle.rt_modes.specs.SuppliedLaws.{NamesAgree, NumbersAgree, NamesTell, AreFound, AreOfTheirNames, AreNumbered};

/// The names of the procedures are those of the first ten bricks, and the number of each brick is its place in the list.
pub fn supplied_bricks_agree()
    ensures names { NamesAgree }
    ensures numbers { NumbersAgree }
{}

/// No two supplied bricks have one name; each is found by its name, and by no other; and what has a number is found so.
pub fn supplied_names_tell()
    ensures tell { NamesTell }
    ensures found { AreFound }
    ensures named { AreOfTheirNames }
    ensures numbered { AreNumbered }
{}
