// Slips: each stands for one condition that is to be settled.

ghost use Rattle.std.specs.Prelude.{◌≡◌};

use sheets::fault::SheetFault;

// Neither Copy nor Clone nor Drop: it is owed, until it is settled or handed back.
pub struct Slip {
    tag: u64,
    number: usize,
}

// A slip that was not taken back, and why.
pub struct Returned {
    pub slip: Slip,
    pub fault: SheetFault,
}

impl Slip {
    pub(super) fn new(tag: u64, number: usize) -> Slip
        ensures { result ≡ record { tag = tag; number = number } }
    {
        Slip { tag, number }
    }

    // The tag of the examination that handed it out.
    pub fn tag(&self) -> u64
        ensures { result ≡ self.now.tag }
    {
        self.tag
    }

    // The number of its condition.
    pub fn number(&self) -> usize
        ensures { result ≡ self.now.number }
    {
        self.number
    }

    // Ends it.
    pub(super) fn spend(self) {
        let Slip { tag: _, number: _ } = self;
    }
}
