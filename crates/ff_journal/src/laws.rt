//! How a journal goes on.
ghost use Rattle.ff_journal.specs.Laws.{LegalGrows, LegalForItsScripts, OrdersInForceAreHeld};

/// A law: an entry that follows a legal journal makes it a longer one.
pub fn legal_grows()
    ensures { LegalGrows }
{}

/// A law: a legal journal is legal for the scripts that it shows, and complete for them where each epoch begun is published.
pub fn legal_for_its_scripts()
    ensures { LegalForItsScripts }
{}

/// A law: an order is in force on a pair exactly where some viewer holds it.
pub fn orders_in_force_are_held()
    ensures { OrdersInForceAreHeld }
{}
