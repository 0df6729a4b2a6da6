ghost use Rattle.std.specs.Prelude.{◌≡◌};
ghost use Rattle.entry_codec.specs.declared.entry.Entry.{Entry};
ghost use Rattle.entry_bytes.specs.Spelling.{entry_bytes};
ghost use Rattle.entry_bytes.specs.Sound.{IsEntry, IsProperEntry};

/// Entries that have the same bytes are equal.
pub fn one_spelling()
    ensures { (e f : Entry) → IsEntry e → IsProperEntry e → IsEntry f → IsProperEntry f → entry_bytes e ≡ entry_bytes f → e ≡ f }
{}
