// The law of the counts.
ghost use Rattle.book.specs.LawOfCounts.{EveryRunKeepsTheLaw};

// Carries the law of the counts, over any list of calls from a new builder.
pub fn law_of_the_counts()
    ensures { EveryRunKeepsTheLaw }
{}
