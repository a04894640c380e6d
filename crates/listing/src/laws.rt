// What holds of every listing, and some listings that are known.
ghost use Rattle.listing.specs.Laws.{GoesOn, StaysRefused, KnownSettings};

// What stands in a listing stays there when the text goes on.
pub fn listings_go_on()
    ensures goes_on { GoesOn }
    ensures stays_refused { StaysRefused }
{}

// Five settings and their whole listings.
pub fn known_settings()
    ensures lists_known_settings { KnownSettings }
{}
