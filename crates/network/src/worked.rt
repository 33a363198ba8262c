// Examples with numbers.
ghost use Rattle.network.specs.Worked.{Worked};

// The definitions of bounds, chains, earliest times and rounds hold of small lists of bounds, in ticks and ranked.
pub fn worked_examples()
    ensures { Worked }
{}
