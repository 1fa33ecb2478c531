//! The laws of queries.
ghost use Rattle.fs_query.specs.Laws.{OneAnswer, SomeAnswer, AnswersFit, AnsweredOnce, OthersDoNotCount, LimitTakes, PagesGoOn, FitsADisjunct, JoiningRise, JoiningAreUnordered, NotOnMissing, OrderNeedsField, PathsAreKept, OthersAreLeftOut, NoMapIsLeftEmpty};

/// The laws of answers. Over documents whose names rise there is one answer, and no more. What is answered is among the
/// documents, fits, and is answered once. A document that doesn't fit changes no answer. A limit takes the beginning of the
/// answer without one. `startAt` behind the last document of a page goes on where the page ended.
pub fn answers_are_lawful()
    ensures one { OneAnswer }
    ensures some { SomeAnswer }
    ensures fit { AnswersFit }
    ensures once { AnsweredOnce }
    ensures others { OthersDoNotCount }
    ensures limit { LimitTakes }
    ensures pages { PagesGoOn }
{}

/// The laws of filters. A document fits a query exactly where it fits one of its disjuncts. The paths that join the order
/// rise, and are the fields of inequalities that aren't ordered. NOT_EQUAL and NOT_IN are false on null and on absent
/// fields. Ordering by a field leaves out documents without it.
pub fn filters_are_lawful()
    ensures disjuncts { FitsADisjunct }
    ensures rise { JoiningRise }
    ensures joining { JoiningAreUnordered }
    ensures missing { NotOnMissing }
    ensures ordered { OrderNeedsField }
{}

/// The laws of projections. What is at the paths and below them is as before, there is nothing apart from them, and no map
/// is left empty on the way to what isn't there.
pub fn projections_are_lawful()
    ensures kept { PathsAreKept }
    ensures others { OthersAreLeftOut }
    ensures maps { NoMapIsLeftEmpty }
{}
