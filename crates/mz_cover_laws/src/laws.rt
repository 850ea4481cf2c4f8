//! Laws of covers, each the contract of a function that does nothing.
ghost use Rattle.mz_cover_laws.specs.Inhabited.{ObjectLaw, RadixLaw, RegisteredLaw, CoveredLaw, ModeLaw};

/// There is an object, and so are `object` and `set` inhabited.
pub fn object_law()
    ensures { ObjectLaw }
{}

/// Where a type's adjectives fit from the guard of its radix, the type is inhabited if the radix is.
pub fn radix_law()
    ensures { RadixLaw }
{}

/// A type that an existential registration covers is inhabited, where what the registrations state derives.
pub fn registered_law()
    ensures { RegisteredLaw }
{}

/// A covered type is inhabited if its radix is.
pub fn covered_law()
    ensures { CoveredLaw }
{}

/// A mode whose definition has a plain definiens is inhabited at values that fit its loci, where what the definition owes and what
/// it grants derive.
pub fn mode_law()
    ensures { ModeLaw }
{}
