// Laws of the rules that tables keep: they are the notation's.

ghost use Rattle.checking.specs.Readings.{LeavesReadable, LeavesSound};
ghost use Rattle.checking.specs.Spelled.{ReadingIsTheNotation};

// Tables keep the rules of reading exactly if they hold a unit that some bytes spell; those that reading leaves keep them, and break no other exactly if the unit that stands in the bytes breaks none (docs/CHECKING.md).
pub fn rule_six_stands()
    ensures notation { ReadingIsTheNotation }
    ensures left { LeavesReadable }
    ensures sound { LeavesSound }
{}
