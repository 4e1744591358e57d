use c_faults::{Fault, Spot, Stop, sooner};
use sv_base::FaultKind;

/// The first of some faults by their tokens, where what shows them is not read in token order.
#[derive(Clone, Copy)]
pub struct Least {
    fault: Option<Fault>,
}

impl Least {
    /// No fault.
    pub fn new() -> Least {
        Least { fault: None }
    }

    /// One more fault.
    pub fn add(&mut self, kind: FaultKind, at: Spot) {
        self.add_fault(Fault { kind, at });
    }

    fn add_fault(&mut self, fault: Fault) {
        self.fault = match self.fault {
            Some(other) => Some(sooner(other, fault)),
            None => Some(fault),
        };
    }

    /// Why something stopped is one more fault, unless it is want of memory.
    pub fn note(&mut self, stop: Stop) -> Result<(), Stop> {
        match stop {
            Stop::Fault(fault) => {
                self.add_fault(fault);
                Ok(())
            }
            Stop::NoMemory => Err(Stop::NoMemory),
        }
    }

    pub fn is_empty(&self) -> bool {
        self.fault.is_none()
    }

    /// Refuses where there was a fault.
    pub fn finish(&self) -> Result<(), Stop> {
        match self.fault {
            Some(fault) => Err(Stop::Fault(fault)),
            None => Ok(()),
        }
    }
}
