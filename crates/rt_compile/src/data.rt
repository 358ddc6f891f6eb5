//! The bytes of a data brick of a typed module, and the words in them that become addresses, as they stand in an object.
//!
//! `specs/Data.antt` has the definition, and `specs/DataLaws.antt` what these bytes keep.

pub mod offset;
pub mod starts;
pub mod written;
