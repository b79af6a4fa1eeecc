// The table of worked values.
ghost use Rattle.worked.specs.Values.{WorkedValues};

// Each value is what its definition gives. Nothing runs, callers learn it.
pub fn worked_values()
    ensures { WorkedValues }
{}
