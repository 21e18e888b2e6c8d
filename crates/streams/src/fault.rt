// What is wrong with a stream, and where.
ghost use Rattle.std.specs.Prelude.{◌≡◌};
ghost use Rattle.streams.specs.Faults.{fault_number, fault_place};

use std::error::Error;
use std::fmt;

// The place is that of the count or of the run control at fault.
#[derive(Clone, Copy, PartialEq, Eq, Debug)]
pub enum StreamFault {
    Points(usize),
    Deltas(usize),
}

impl StreamFault {
    pub fn number(self) -> u8
        ensures { result ≡ fault_number self }
    {
        match self {
            StreamFault::Points(_) => 22,
            StreamFault::Deltas(_) => 23,
        }
    }

    pub fn place(self) -> usize
        ensures { result ≡ fault_place self }
    {
        match self {
            StreamFault::Points(at) | StreamFault::Deltas(at) => at,
        }
    }
}

// Number and place.
impl fmt::Display for StreamFault {
    fn fmt<W: fmt::Write>(&self, f: &mut fmt::Formatter<W>) -> fmt::Result {
        let number = self.number();
        let place = self.place();
        write!(f, "refused {number} stream place {place}")
    }
}

impl Error for StreamFault {}
