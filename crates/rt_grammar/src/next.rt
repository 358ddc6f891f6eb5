use rt_pieces::{Mark, Word};

/// What comes next, as far as the grammar looks at it.
#[derive(Clone, Copy)]
pub enum Next {
    End,
    Word(Word),
    Name,
    Number,
    Text,
    Mark(Mark),
}
