//! Laws of full modes and of spellings, which the definitions alone give.

ghost use Rattle.rt_modes.specs.Laws.{DefineWhatIsMentioned, HaveOneSpelling, AreReadBack, StandOrAreRefused, NeverBoth};

/// The definitions behind WHERE are those of the records that the text so written mentions, in the order
/// of first mention, each once.
pub fn full_modes_define_what_they_mention()
    ensures { DefineWhatIsMentioned }
{}

/// No spelling of a mode begins that of another; a mode that is spelled is read back, whatever follows;
/// and at each place of bytes either a mode stands or a field is refused.
pub fn one_spelling()
    ensures one { HaveOneSpelling }
    ensures back { AreReadBack }
    ensures either { StandOrAreRefused }
    ensures apart { NeverBoth }
{}
