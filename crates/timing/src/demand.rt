// The response iteration, over plain numbers.
ghost use Rattle.std.specs.Prelude.{◌≡◌, ◌^◌, ◌<◌, ◌≤◌, length, sum_by};
ghost use Rattle.std.specs.List.{AllByRecursion};
ghost use Rattle.std.proofs.Props.{props};
ghost use Rattle.timing.specs.Bounds.{max_own, max_period, max_loads};
ghost use Rattle.timing.specs.Demand.{demand, interference, share, Bounded, Under, Judged};

// The whole processor, of which a task's share is a part.
const SCALE: u64 = 1 << 32;

// What a more urgent task adds to the demand of those below it.
#[derive(Clone, Copy, Default)]
pub(crate) struct Load {
    pub time: u64,
    // what each release takes: the time and the switch time
    pub cost: u64,
    pub period: u64,
    pub jitter: u64,
}

impl Load {
    fn within(&self, w: u64) -> u64
        requires bounded { Bounded self.now }
        requires short { w ≤ max_period }
        ensures { result ≡ interference w self.now }
    {
        (w + self.jitter).div_ceil(self.period) * self.cost
    }

    fn share(&self) -> u64
        requires { Bounded self.now }
        ensures { result ≡ share self.now }
    {
        self.cost * SCALE / self.period
    }
}

// What a task asks of the processor: what it needs itself, and the loads of the more urgent tasks.
#[derive(Drop)]
pub(crate) struct Demand<'a> {
    pub own: u64,
    pub urgent: &'a [Load],
    ghost positive: { 1 ≤ own },
    ghost small: { own ≤ max_own },
    ghost few: { length urgent.now ≤ max_loads },
    ghost bounded: { AllByRecursion Bounded urgent.now } by { Prim.hlevel props },
}

impl Demand<'_> {
    fn over(&self, w: u64) -> u64
        requires { w ≤ max_period }
        ensures { result ≡ demand self.now.own self.now.urgent.now w }
    {
        self.own + self.urgent.iter().map(|load| load.within(w)).sum::<u64>()
    }

    fn shares(&self) -> u64
        ensures { result ≡ sum_by share self.now.urgent.now }
    {
        self.urgent.iter().map(Load::share).sum()
    }

    // No window is shorter than this: over any stretch each more urgent task takes at least its share of the processor.
    fn start(&self) -> u64
        ensures under { Under (demand self.now.own self.now.urgent.now) result }
        ensures fits { result < 2 ^ 63 }
    {
        let spare = SCALE.saturating_sub(self.shares()).max(1);
        (self.own * SCALE).div_ceil(spare)
    }

    // The window in which this is done, where it meets the deadline.
    pub(crate) fn window(&self, jitter: u64, deadline: u64) -> Option<u64>
        requires late { jitter ≤ max_period }
        requires due { deadline ≤ max_period }
        ensures { Judged (demand self.now.own self.now.urgent.now) jitter deadline result }
    {
        let mut w = self.start();
        // a rule of the project: the window comes out of a loop by `break`
        loop {
            if w + jitter > deadline {
                break None;
            }
            let next = self.over(w);
            if next == w {
                break Some(w);
            }
            w = next;
        }
    }
}
