// Paths: the sheets of a unit's paths.

ghost use Rattle.sheets.specs.PathExamples.{Examples};

// What sheets and runs come to, by examples.
pub fn examples_stand()
    ensures { Examples }
{}
