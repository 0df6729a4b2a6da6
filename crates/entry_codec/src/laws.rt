//! Laws of histories. Each is the contract of a function that does nothing.

ghost use Rattle.std.specs.Prelude.{ℕ, List, ◌++◌, IsSome};
ghost use Rattle.entry_codec.specs.Histories.{tables, Stays};
ghost use Rattle.entry_codec.specs.declared.entry.Entry.{Entry};

/// What a commit stored never changes: later entries, whatever they are, leave its record, its data versions, its own values and its
/// ancestry.
pub fn commits_stay()
    ensures { (r : ℕ) (past more : List Entry) (c : ℕ) → IsSome ((tables r past).commit c) → Stays r past (more ++ past) c }
{}
