// What holds of shelvings: functions that do nothing, whose contracts are laws.
ghost use Rattle.client_shelf.specs.Laws.{OneEndIsDue, ShelvesArePending};

/// States that what is kept decides which end a shelving comes to before it asks anything: at most one is due.
pub fn one_end_is_due()
    ensures { OneEndIsDue }
{}

/// States that what a shelving leaves pending is the shelf: an entry for each of its lists of effects, on the rows that were pulled.
pub fn shelves_are_pending()
    ensures { ShelvesArePending }
{}
