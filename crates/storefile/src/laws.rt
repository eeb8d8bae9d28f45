// Laws of the definitions.

ghost use Rattle.storefile.specs.Laws.{AtMostOne, InOneFormat, IsNotRefused, UnrefusedMeansSomething, StoresNetworks, GivesNetworks, StandingIsStored, ClosedPageMeansNothing, OpenPageIsOneMore, ClosedSlotMeansNothing, OpenSlotIsCurrent, SlotsKeepTidy};
ghost use Rattle.storefile.specs.Vectors.{FileExamples, GroupExamples, RoomExamples, OldExamples};

/// A file stands for at most one network, version and next sequence. It stands for one exactly if opening does not refuse it.
pub fn meaning_of_a_file()
    ensures at_most_one { AtMostOne }
    ensures one_format { InOneFormat }
    ensures not_refused { IsNotRefused }
    ensures unless_refused { UnrefusedMeansSomething }
    ensures networks { StoresNetworks }
    ensures stands_for_networks { GivesNetworks }
    ensures told { StandingIsStored }
{}

/// What a file stands for while the next page of its journal is being written, and afterwards.
pub fn journal_page_that_is_written()
    ensures closed { ClosedPageMeansNothing }
    ensures opened { OpenPageIsOneMore }
{}

/// What a file stands for while the slot that is not current is being written, and afterwards.
pub fn slot_that_is_written()
    ensures closed { ClosedSlotMeansNothing }
    ensures opened { OpenSlotIsCurrent }
    ensures tidy { SlotsKeepTidy }
{}

/// The worked files are judged as stated.
pub fn worked_files()
    ensures { FileExamples }
{}

/// So are those with groups.
pub fn worked_groups()
    ensures { GroupExamples }
{}

/// So are those of networks with room.
pub fn worked_rooms()
    ensures { RoomExamples }
{}

/// So are those of format 1.
pub fn worked_old_files()
    ensures { OldExamples }
{}
