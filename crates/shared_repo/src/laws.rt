//! Laws of opening again. Each is the contract of a function that does nothing.

ghost use Rattle.shared_repo.specs.Laws.{IsSpelledOnce, IsNeverDamaged};

/// The records of a keeper spell one history at most: what opening finds is what was stored.
pub fn spelled_once()
    ensures { IsSpelledOnce }
{}

/// Where the records spell a history whose entries are accepted where they stand, opening finds no damage.
pub fn never_damaged()
    ensures { IsNeverDamaged }
{}
