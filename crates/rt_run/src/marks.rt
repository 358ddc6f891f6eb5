ghost use Rattle.std.specs.Prelude.{◌≡◌, ◌≢◌, ℕ, ◌<◌, MatchOption};
ghost use Rattle.rt_run.specs.Marks.{mark_of, IsLeastMark, HasNoMark};

// Which of the 256 priorities are marked: a bit for each, 64 in a word.
#[derive(Drop)]
pub struct Marks {
    pub words: [u64; 4],
}

impl Marks {
    // No priority is marked.
    pub fn new() -> Marks
        ensures { HasNoMark result.words }
    {
        Marks { words: [0; 4] }
    }

    // Marks a priority.
    pub fn set(&mut self, priority: u8)
        ensures here { mark_of self.new.words priority ≡ 1 }
        ensures others { (p : ℕ) → p < 256 → p ≢ priority → mark_of self.new.words p ≡ mark_of self.old.words p }
    {
        self.words[usize::from(priority / 64)] |= 1 << (priority % 64);
    }

    // Takes a priority's mark away.
    pub fn clear(&mut self, priority: u8)
        ensures here { mark_of self.new.words priority ≡ 0 }
        ensures others { (p : ℕ) → p < 256 → p ≢ priority → mark_of self.new.words p ≡ mark_of self.old.words p }
    {
        self.words[usize::from(priority / 64)] &= !(1 << (priority % 64));
    }

    // The least priority that is marked.
    pub fn least(&self) -> Option<u8>
        ensures { MatchOption result (HasNoMark self.now.words) (IsLeastMark self.now.words) }
    {
        for at in 0..4u8 {
            let word = self.words[usize::from(at)];
            if word != 0 {
                return Some(at * 64 + word.trailing_zeros() as u8);
            }
        }
        None
    }
}
