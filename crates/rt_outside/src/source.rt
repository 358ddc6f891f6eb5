ghost use Rattle.std.specs.Prelude.{◌≡◌, ◌≤◌, ℕ, Bool, List, Option};
ghost use Rattle.rt_words.specs.Causes.{Rose};
ghost use Rattle.rt_outside.specs.Streams.{TakesNext, KeepsEnd};

/// What a source answers.
#[derive(Clone, Copy, Drop)]
pub enum Next {
    /// The next byte, which is taken.
    Byte(u8),
    /// No byte is left.
    End,
    /// The source failed, and took nothing.
    Failed,
}

/// Bytes that come one by one.
///
/// A source may tell the bytes that are left. It has a count of faults, which never falls.
pub trait Source {
    /// The bytes that are left, where the source tells them.
    ghost left: { Self → Option (List ℕ) };
    /// Whether the end is reached: then no byte comes any more.
    ghost ended: { Self → Bool };
    /// How many calls have failed.
    ghost faults: { Self → ℕ };

    /// Takes the next byte.
    fn next(&mut self) -> Next
        ensures takes { TakesNext (left self.old) result (left self.new) }
        ensures end { KeepsEnd (ended self.old) result (ended self.new) }
        ensures failed { result ≡ Next.Failed → Rose (faults self.old) (faults self.new) }
        ensures later { faults self.old ≤ faults self.new };
}
