// The law of the two code tables. It is a function that does nothing, whose contract is the law.
ghost use Rattle.pdp_code.specs.Laws.{WordsBegin, WordsCome};

/// The instruction that a first word begins is the one whose words begin with it: [`crate::first::first`], by which a
/// machine goes, has the codes of [`crate::encode`] and [`crate::decode`].
pub fn first_words()
    ensures begin { WordsBegin }
    ensures come { WordsCome }
{}
