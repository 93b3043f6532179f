//! The law of listings.

ghost use Rattle.std.specs.Prelude.{◌≡◌};
ghost use Rattle.dc_code.specs.Codes.{CodeLists};
ghost use Rattle.dc_listing.specs.Listing.{listing};

/// Two codes with the same listing are the same code.
pub fn a_listing_determines_its_code()
    ensures { (first second : CodeLists) → listing first ≡ listing second → first ≡ second }
{}
