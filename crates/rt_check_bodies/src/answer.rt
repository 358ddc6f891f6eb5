use rt_modes::Mode;

/// The result of a procedure.
#[derive(Drop)]
pub enum Answer {
    Nothing,
    Wanted(Mode),
    /// A mode that can't be known, since it is unfit: what is returned is judged by itself.
    Unknown,
}
