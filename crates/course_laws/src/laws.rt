ghost use Rattle.course_laws.specs.Laws.{FirstBadAnswer, GoesOneWay, NoCallTwice, NothingSaved, StatesAreLeft, UpdatesAskedFor};
ghost use Rattle.course_laws.specs.Runs.{EndsCome, HoldsCome, RestsCome};

/// Laws of each run's log, for any replies, whether it is a whole run, one that is held, or one that is resumed: it ends at the first bad answer, of the least component that has one; none of
/// an FMU's calls stands twice where it can only be answered the same; and an Update follows another at one point only
/// where one was asked for or a Clock was armed for the point. A saved state that it leaves is one that the closing frees, and
/// in a whole run where at most one FMU might return early no state is saved, gone back to or freed.
pub fn calls_of_runs()
    ensures ends { EndsCome }
    ensures holds { HoldsCome }
    ensures rests { RestsCome }
    ensures answers { FirstBadAnswer }
    ensures once { NoCallTwice }
    ensures updates { UpdatesAskedFor }
    ensures left { StatesAreLeft }
    ensures way { GoesOneWay }
    ensures unsaved { NothingSaved }
{}
