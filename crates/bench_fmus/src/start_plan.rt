ghost use Rattle.std.specs.Prelude.{◌≡◌, ◌↔◌, ◌+◌, ◌-◌, ◌^◌, min, IsErr, IfErr, OnOk, OnErr, Contains};
ghost use Rattle.sim_base.specs.Causes.{one_more};

use fmu_peer::StartFault;
use sim_base::Items;

/// Which starts of a spawner are to fail, by their numbers from 0, and how many starts and faults there were.
#[derive(Debug, Drop)]
pub struct StartPlan {
    pub failing: Items<u64>,
    pub starts: u64,
    pub faults: u64,
}

impl StartPlan {
    /// A plan before the first start.
    pub fn new(failing: Vec<u64>) -> StartPlan
        ensures failing { result.failing ≡ failing.items }
        ensures quiet { (result.starts ≡ 0) × (result.faults ≡ 0) }
    {
        StartPlan {
            failing: Items::from_vec(failing),
            starts: 0,
            faults: 0,
        }
    }

    /// Counts a start, and fails where it is to fail.
    pub fn begin(&mut self) -> Result<(), StartFault>
        ensures exact { IsErr result ↔ Contains self.old.failing self.old.starts }
        ensures failed { IfErr result (λ fault. fault ≡ StartFault.Failed) }
        ensures failing { self.new.failing ≡ self.old.failing }
        ensures counted { self.new.starts ≡ min (self.old.starts + 1) (2 ^ 64 - 1) }
        ensures quiet { OnOk result (self.new.faults ≡ self.old.faults) }
        ensures rose { OnErr result (self.new.faults ≡ one_more self.old.faults) }
    {
        let fails = self.failing.as_slice().contains(&self.starts);
        self.starts = self.starts.saturating_add(1);
        if fails { Err(self.fail()) } else { Ok(()) }
    }

    /// Counts a fault.
    pub fn fail(&mut self) -> StartFault
        ensures fault { result ≡ StartFault.Failed }
        ensures rose { self.new.faults ≡ one_more self.old.faults }
        ensures failing { self.new.failing ≡ self.old.failing }
        ensures starts { self.new.starts ≡ self.old.starts }
    {
        self.faults = self.faults.saturating_add(1);
        StartFault::Failed
    }
}
