//! What a view says of a count of positional parameters, as a law.
ghost use Rattle.sh_tally.specs.Counts.{ViewsBoundCounts};

/// What is seen somewhere has at most the count that one of its views makes.
pub fn views()
    ensures { ViewsBoundCounts }
{}
