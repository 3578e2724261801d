//! A law about the definitions, proved as the contract of a function that does nothing.
ghost use Rattle.tt_ids.specs.Ids.{IdLaw};

/// Two numbers have two ids.
pub fn ids_differ()
    ensures { IdLaw }
{}
