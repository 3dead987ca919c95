// The worked cases of the machine, together.
ghost use Rattle.cases.specs.Worked.{Case, Gives};

// Every case gives what it should.
pub fn worked_cases()
    ensures { (k : Case) → Gives k }
{}
