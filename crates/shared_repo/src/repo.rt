ghost use Rattle.std.specs.Prelude.{◌≡◌};
ghost use Rattle.repo_state.specs.Stands.{front_of};

use journal_disk::Keeper;
use repo_state::State;

/// A repository that nobody else uses: a keeper, and the state of the history whose entries are its records.
#[derive(Drop)]
pub struct Repo<Q: Keeper> {
    pub(crate) keeper: Q,
    pub(crate) state: State,
    ghost count: { front_of state ≡ (Q.figures keeper).count },
}
