//! The law of listings, as the contract of a function that does nothing.

ghost use Rattle.rt_report.specs.ListingLaws.{HasOneListing};

/// An object has one listing.
pub fn one_listing()
    ensures { HasOneListing }
{}
