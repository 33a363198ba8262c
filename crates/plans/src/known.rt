// Plans with known outcomes.
ghost use Rattle.plans.specs.Known.{KnownOutcomes};

// Calls on small plans, in ticks and ranked, get these answers, and bounds and chains have these words.
pub fn known_outcomes()
    ensures { KnownOutcomes }
{}
