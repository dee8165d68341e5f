// The four blocks of a roster file.
ghost use Rattle.std.specs.Prelude.{◌≡◌, ℕ, ◌<◌, map, MatchOption, ◌≢◌};
ghost use Rattle.files.specs.Blocks.{names, width, name_of, may_lack as may_lack_of};

// the column of a task's floor
const FLOOR: usize = 5;

#[derive(Clone, Copy, PartialEq, Eq, Debug)]
pub enum Block {
    Switch,
    Steps,
    Tasks,
    Sections,
}

impl Block {
    // The names of its columns.
    fn names(self) -> &'static [&'static str]
        ensures { map (λ name. name.now) result.now ≡ names self }
    {
        match self {
            Block::Switch => &["switch"],
            Block::Steps => &["khz", "cv"],
            Block::Tasks => &["prio", "cycles", "period", "deadline", "jitter", "floor"],
            Block::Sections => &["prio", "res", "cycles"],
        }
    }

    // How many columns it has.
    pub fn width(self) -> usize
        ensures { result ≡ width self }
    {
        self.names().len()
    }

    // The column of that name.
    pub fn column(self, name: &[u8]) -> Option<usize>
        ensures { MatchOption result ((k : ℕ) → k < width self → name.now ≢ name_of self k) (λ k. (k < width self) × (name.now ≡ name_of self k)) }
    {
        self.names().iter().position(|n| n.as_bytes() == name)
    }

    // Whether a column may hold `-`.
    pub fn may_lack(self, column: usize) -> bool
        ensures { result ≡ may_lack_of self column }
    {
        self == Block::Tasks && column == FLOOR
    }
}
