//! The law of listings: a listing tells all of a sound model.

ghost use Rattle.solid_listing.specs.Telling.{ListingTells};

/// Two sound models have equal listings exactly if they are equal. Models write each loop from its least half-edge on, so equal models are those with
/// equal numbers, points and cyclic loops.
pub fn listing_tells()
    ensures { ListingTells }
{}
