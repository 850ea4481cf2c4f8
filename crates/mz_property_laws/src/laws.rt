//! What holds of properties behind a heading, as the contract of a function that does nothing.
ghost use Rattle.mz_property_laws.specs.Laws.{PropertiesGrowLaw, PropertiesKeepLaw, OnePropertiesLaw};

/// The clauses only grow; where an article stood soundly but for the loci of a block it does behind; and there is one outcome at most.
pub fn property_law()
    ensures grows { PropertiesGrowLaw }
    ensures keeps { PropertiesKeepLaw }
    ensures one { OnePropertiesLaw }
{}
