use sysapi_base::Memory as NoMemory;

/// Why a commit is not added.
#[derive(Clone, Copy, Debug, PartialEq, Eq)]
pub enum AddError {
    /// The graph has no commit of the number that is given as the previous one.
    UnknownPrevious,
    /// No memory was found.
    Memory,
}

impl From<NoMemory> for AddError {
    ghost use Rattle.std.specs.Prelude.{◌≡◌};
    ghost use Rattle.commit_graph.specs.declared.error.AddError.TheVariants.{Memory};

    ghost from_gives = { λ _ e. e ≡ Memory };

    fn from(_error: NoMemory) -> AddError {
        AddError::Memory
    }
}
