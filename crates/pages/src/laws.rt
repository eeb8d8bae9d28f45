// Laws of the spelling and of the layout.

ghost use Rattle.pages.specs.Gates.{GatesReadBack};
ghost use Rattle.pages.specs.Laws.{OneSpelling, OneContent, OldEntriesStay, GroupsAreRecords, PartsFill, PagesHold, FormatOneHasNoEnds};
ghost use Rattle.pages.specs.Vectors.{LayoutExamples, PageExamples};

/// Each content has one spelling, and each spelling one content.
pub fn spelling_is_one_to_one()
    ensures one_spelling { OneSpelling }
    ensures one_content { OneContent }
    ensures gates { GatesReadBack }
    ensures old { OldEntriesStay }
    ensures groups { GroupsAreRecords }
{}

/// The parts of a file are disjoint and fill it, and its pages hold the arcs.
pub fn parts_fill_the_file()
    ensures parts { PartsFill }
    ensures pages { PagesHold }
    ensures format_one { FormatOneHasNoEnds }
{}

/// The worked pages have their bytes, and the worked files their pages.
pub fn worked_pages()
    ensures layout { LayoutExamples }
    ensures pages { PageExamples }
{}
