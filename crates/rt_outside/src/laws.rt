//! The laws, as the contracts of functions that do nothing.

ghost use Rattle.rt_outside.specs.Laws.{FilesAreApplied, OthersAreKept, NothingFollows, CountsNeverFall, StretchesJoin, BeginsEarlier};

/// Where all deeds were done, the files are those before with the writes applied in their order; and whether they were or not,
/// files of other names stay as they were.
pub fn files_change_by_writes()
    ensures applied { FilesAreApplied }
    ensures kept { OthersAreKept }
{}

/// Where not all deeds were done one of them failed: those before it were done, and nothing followed it.
pub fn nothing_follows_a_failure()
    ensures { NothingFollows }
{}

/// No count of faults falls.
pub fn counts_never_fall()
    ensures { CountsNeverFall }
{}

/// Deeds that were done, and others behind them, are one stretch of deeds; and deeds that were performed were performed from every
/// earlier moment at which the same was held.
pub fn stretches_join()
    ensures join { StretchesJoin }
    ensures earlier { BeginsEarlier }
{}
