//! Laws of surveys and of sections that are rewritten by them. The functions do nothing.

ghost use Rattle.linker_rewriting.specs.Decisions.{DecisionsAreMade, DecisionsFollow, OneByteTells};
ghost use Rattle.linker_rewriting.specs.Decisions.{WordsTell};
ghost use Rattle.linker_rewriting.specs.GlobalPointer.{ArePartsWholeAcross};
ghost use Rattle.linker_rewriting.specs.Kept.{KeptFactsTell};
ghost use Rattle.linker_rewriting.specs.Rewritten.{GroupsAreWholeAcross, LoadsAreWhole};
ghost use Rattle.linker_rewriting.specs.Rewritten.{SequencesAreWhole};
ghost use Rattle.linker_rewriting.specs.Surveys.{NotesStay, SurveysCommute};
ghost use Rattle.linker_rewriting.specs.TocIndirection.{WordsAreWholeAcross};

/// What is noted of one section of an object is still noted when the others have been surveyed, so
/// that the clause `surveyed` of `rewrite_section` holds of each. The order doesn't matter: the
/// same groups stay. All that is decided of a section follows from which groups stay, and from
/// nothing else of the table.
pub fn surveys_add_up()
    ensures notes_stay { NotesStay }
    ensures commute { SurveysCommute }
    ensures follow { DecisionsFollow }
{}

/// Decisions of `decide_rewrites` are made by `make_rewrites`, which doesn't reject them, where the
/// section and its relocations are those that were decided on. The number that is kept of bytes is
/// another one where one of them is, and of up to four bytes it tells each. Where the same bits are
/// kept of two symbols, choices read the same of them in every phase.
pub fn decisions_are_made()
    ensures made { DecisionsAreMade }
    ensures one { OneByteTells }
    ensures words { WordsTell }
    ensures facts { KeptFactsTell }
{}

/// All of a group are rewritten, or none is: those relocations of an object that no other takes
/// along, in whichever of its sections they are, which are decided by one table; all loads of a
/// word; all parts of a symbol, in sections whose relocations ascend. So are both instructions of a
/// marked load from LoongArch's GOT, whatever other loads of its symbol are, and all of a sequence
/// of AArch64, in any phase: a load from the GOT, an address by its page, or a TLS descriptor,
/// where the kinds of rewrites match.
pub fn groups_are_whole()
    ensures groups { GroupsAreWholeAcross }
    ensures words { WordsAreWholeAcross }
    ensures parts { ArePartsWholeAcross }
    ensures loads { LoadsAreWhole }
    ensures sequences { SequencesAreWhole }
{}
