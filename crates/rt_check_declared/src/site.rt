/// Where a mode is written.
#[derive(Clone, Copy)]
pub enum Site {
    /// As that of a field of a record, or of an item of a data brick.
    Item,
    /// As that of a local, or of a parameter or the result of a procedure.
    Variable,
    /// Behind REF or REF ARRAY, or as that of the elements of an array.
    Inside,
    /// As that of a parameter or the result of a PROC.
    Argument,
}
