// The walk along the chains.
ghost use Rattle.std.specs.Prelude.{◌≡◌, ◌≤◌, ◌<◌};
ghost use Rattle.chains.specs.Chains.{chain, all_members};
ghost use Rattle.chains.specs.Walks.{unwalked, step_to, walked, stretches_walked};

use crate::ChainsInRange;
use plants::Stretch;

// Who was met so far, their places in the order of the steps, the steps taken, and whether a step met a unit again. The list has room for
// 64 of them, which is enough where no unit is met twice. `met` goes by unit and `members` by step, so they are no array of pairs. `twice` is
// no sign that the rest is missing: a walk that met a unit again goes on to its end.
#[derive(Clone, Copy, Default)]
pub struct Walk {
    pub met: [bool; 64],
    pub members: [u8; 64],
    pub steps: u16,
    pub twice: bool,
}

// The walk along all chains, and where each aggregate's members stand in its list.
#[derive(Clone, Copy)]
pub struct Walked {
    pub walk: Walk,
    pub stretches: [Stretch; 16],
}

impl Walk {
    // One unit more, where there is room in the list.
    #[tactic(auto, unfolding(crate::specs::Walks::step_to))]
    fn step_to(&mut self, place: u8)
        requires { (place < 64) × (self.old.steps < 2000) }
        ensures { self.new ≡ step_to self.old place }
    {
        let i = usize::from(place);
        self.twice |= self.met[i];
        self.met[i] = true;
        let at = usize::from(self.steps);
        // By the index: through `get_mut` the proof didn't close, since it then knows of the list no more than its length.
        if at < 64 {
            self.members[at] = place;
        }
        self.steps += 1;
    }
}

impl ChainsInRange {
    // Along one chain. 65 steps are enough to end it, or to meet a unit again.
    fn walk_chain(&self, mut walk: Walk, head: u8) -> Walk
        requires { (head ≤ self.now.chains.units) × (walk.steps ≤ 1000) }
        ensures { result ≡ walked walk (chain self.now.chains.next 65 head) }
    {
        let mut unit = head;
        for _ in 0..65u8 {
            let Some(place) = unit.checked_sub(1) else {
                return walk;
            };
            walk.step_to(place);
            unit = self.chains.next[usize::from(place)];
        }
        walk
    }

    // Chain after chain: a stretch starts where the one before it ends. A walk that meets units twice may be longer than a byte says; `as` keeps
    // the remainder of its starts and counts, for which `u8::try_from` would need another value.
    pub fn walk_chains(&self) -> Walked
        ensures { (result.walk ≡ walked unwalked (all_members self.now.chains)) × (result.stretches ≡ stretches_walked self.now.chains) }
    {
        let mut walk = Walk::default();
        let mut stretches = [Stretch::default(); 16];
        for j in 0..self.chains.aggregates {
            let start = walk.steps;
            walk = self.walk_chain(walk, self.chains.heads[j]);
            stretches[j] = Stretch {
                start: (start % 256) as u8,
                count: ((walk.steps - start) % 256) as u8,
            };
        }
        Walked { walk, stretches }
    }
}
