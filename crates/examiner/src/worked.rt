// The worked unit, of which the page on examinations tells.

ghost use Rattle.examiner.specs.WorkedUnit.{WorkedUnit};

// What each definition on the way to a verdict makes of the worked unit.
pub fn worked_unit_stands()
    ensures { WorkedUnit }
{}
