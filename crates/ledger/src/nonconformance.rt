// The latest instances: what a day makes of them, and what a third one finds.
ghost use Rattle.std.specs.Prelude.{◌≡◌};
ghost use Rattle.ledger.specs.Days.{is_instance};
ghost use Rattle.ledger.specs.Ledgers.{conformed, all_conformed, noted, instances_after, third_declares};

use crate::{Conduct, Instance, Instances};

impl Conduct {
    pub(crate) fn is_instance(self) -> bool
        ensures { result ≡ is_instance self }
    {
        matches!(self, Conduct::Nonconformant)
    }
}

impl Instance {
    fn conformed(self) -> Instance
        ensures { result ≡ conformed self }
    {
        Instance {
            conformed: true,
            ..self
        }
    }
}

impl Instances {
    fn conformed(self) -> Instances
        ensures { result ≡ all_conformed self }
    {
        Instances {
            earlier: self.earlier.map(|instance| instance.conformed()),
            latest: self.latest.map(|instance| instance.conformed()),
        }
    }

    fn noted(self, instance: Instance) -> Instances
        ensures { result ≡ noted self instance }
    {
        Instances {
            earlier: self.latest,
            latest: Some(instance),
        }
    }

    // After a day, whose three months end there.
    #[tactic(auto, unfolding(crate::specs::Ledgers::instances_after))]
    pub(crate) fn after(self, conduct: Conduct, end: u32) -> Instances
        ensures { result ≡ instances_after conduct end self }
    {
        match conduct {
            Conduct::Undispatched => self,
            Conduct::Conformant => self.conformed(),
            Conduct::Nonconformant => self.noted(Instance {
                end,
                conformed: false,
            }),
        }
    }

    // Whether an instance on that day, the third, declares the unit.
    #[tactic(auto, unfolding(crate::specs::Ledgers::third_declares))]
    pub(crate) fn third_declares(self, third: u32) -> bool
        ensures { result ≡ third_declares self third }
    {
        self.earlier
            .is_some_and(|first| third <= first.end || !first.conformed)
    }
}
