// Sections as the tasks that they may block see them.
ghost use Rattle.std.specs.Prelude.{◌≡◌, ℕ, ◌<◌, slice_index};
ghost use Rattle.std.specs.List.{AllByRecursion};
ghost use Rattle.model.specs.Records.{SectionBounded};
ghost use Rattle.timing.specs.Times.{ceiling, blocks as blocked_by, blocking as longest};

use model::kinds::Section;

const RESOURCES: usize = 8;

// Less urgent than every priority, so that `min` may start from it; an Option is no plainer, as no hold would have its None.
const NO_CEILING: u32 = 256;

// A resource that is held for some time.
#[derive(Clone, Copy, Default)]
pub(crate) struct Hold {
    // the priority of the task that holds it
    pub(crate) owner: u32,
    // the most urgent priority that wants it
    pub(crate) ceiling: u32,
    pub(crate) time: u64,
}

impl Hold {
    fn blocks(&self, priority: u32) -> bool
        ensures { result ≡ blocked_by priority self.now }
    {
        self.owner > priority && self.ceiling <= priority
    }
}

// The ceiling of each resource. A `for` is the plainest: no method of the library takes the least at each index.
pub(crate) fn ceilings(sections: &[Section]) -> [u32; RESOURCES]
    requires { AllByRecursion SectionBounded sections.now }
    ensures { (k : ℕ) → k < 8 → slice_index result k ≡ ceiling sections.now k }
{
    let mut ceilings = [NO_CEILING; RESOURCES];
    for section in sections {
        // std has no `From` for a u32 as usize
        let resource = section.resource as usize;
        ceilings[resource] = ceilings[resource].min(section.owner);
    }
    ceilings
}

// The longest hold that blocks a task of that priority.
pub(crate) fn blocking(holds: &[Hold], priority: u32) -> u64
    ensures { result ≡ longest priority holds.now }
{
    holds
        .iter()
        .filter(|hold| hold.blocks(priority))
        .map(|hold| hold.time)
        .max()
        .unwrap_or(0)
}
