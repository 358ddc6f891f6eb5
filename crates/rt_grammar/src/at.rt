use rt_words::Name;

/// Where something begins: the number of its first item, counted from 0 over the whole list that was
/// handed in, and that item's line.
#[derive(Clone, Copy, Debug)]
pub struct At {
    pub item: u16,
    pub line: u32,
}

/// A name and where it stands.
#[derive(Drop)]
pub struct Ident {
    pub name: Name,
    pub at: At,
}
