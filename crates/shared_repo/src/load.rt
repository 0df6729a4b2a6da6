//! The state of a keeper's records.

ghost use Rattle.std.specs.Prelude.{◌≡◌, ◌+◌, ◌<◌, ◌^◌, ℕ, List, Some, IfOk, length};
ghost use Rattle.entry_codec.specs.declared.entry.Entry.{Entry};
ghost use Rattle.journal_disk.specs.Disk.{LeavesOnly};
ghost use Rattle.journal_disk.specs.Faults.{Counts};
ghost use Rattle.repo_state.specs.Stands.{front_of};
ghost use Rattle.shared_repo.specs.Opening.{IsOnlyRead, Holds, Loads};

use entry_bytes::{DecodeError, decode};
use journal_disk::{Keeper, OpenFault, RecordError};
use repo_state::{AcceptError, State};
use std::alloc::Global;

/// The state of the history that the records spell; or the first record that is no entry acceptable at its place.
pub(crate) fn load<Q: Keeper>(alloc: Global, keeper: &mut Q) -> Result<State, OpenFault>
    ensures loads { Loads (Q.figures keeper.old).repository (Q.records keeper.old) (Q.places keeper.old) (Q.figures keeper.old).count result }
    ensures front { IfOk result (λ state. front_of state ≡ (Q.figures keeper.old).count) }
    ensures told { (kept : List (List ℕ)) → Q.records keeper.old ≡ Some kept → (Q.figures keeper.old).count ≡ length kept }
    ensures read { IsOnlyRead Q.figures Q.places Q.records Q.reading Q.doubted keeper.old keeper.new }
    ensures any_moment { LeavesOnly Q.moment Q.images_since keeper.old keeper.new (Q.images keeper.old) }
    ensures counts { Counts Q.faults Q.IsSteady OpenFault.Fault keeper.old keeper.new result }
{
    let mut state = State::start(alloc, keeper.repository());
    let count = keeper.count();
    for index in 0..count {
        match next_state(alloc, keeper, &state, index) {
            Ok(next) => state = next,
            Err(why) => return Err(why),
        }
    }
    Ok(state)
}

/// The state behind one record more.
fn next_state<Q: Keeper>(
    alloc: Global,
    keeper: &mut Q,
    state: &State,
    index: u64,
) -> Result<State, OpenFault>
    requires inside { index < (Q.figures keeper.old).count }
    requires told { (kept : List (List ℕ)) → Q.records keeper.old ≡ Some kept → (Q.figures keeper.old).count ≡ length kept }
    requires few { front_of state.now < 2 ^ 60 }
    ensures loads { (history : List Entry) → length history ≡ index
        → Holds (Q.figures keeper.old).repository (Q.records keeper.old) state.now history
        → Loads (Q.figures keeper.old).repository (Q.records keeper.old) (Q.places keeper.old) (index + 1) result }
    ensures front { IfOk result (λ s. front_of s ≡ front_of state.now + 1) }
    ensures read { IsOnlyRead Q.figures Q.places Q.records Q.reading Q.doubted keeper.old keeper.new }
    ensures any_moment { LeavesOnly Q.moment Q.images_since keeper.old keeper.new (Q.images keeper.old) }
    ensures counts { Counts Q.faults Q.IsSteady OpenFault.Fault keeper.old keeper.new result }
{
    let damaged = OpenFault::Damaged {
        place: keeper.place(index),
    };
    let bytes = match keeper.record(alloc, index) {
        Ok(bytes) => bytes,
        Err(RecordError::Fault) => return Err(OpenFault::Fault),
        Err(RecordError::Memory) => return Err(OpenFault::Memory),
    };
    let entry = match decode(alloc, &bytes) {
        Ok(entry) => entry,
        Err(DecodeError::NotAnEntry) => return Err(damaged),
        Err(DecodeError::Memory) => return Err(OpenFault::Memory),
    };
    match state.accept(alloc, entry.moment, &entry.command) {
        Ok(accepted) => Ok(accepted.state),
        Err(AcceptError::Refused(_)) => Err(damaged),
        Err(AcceptError::Memory) => Err(OpenFault::Memory),
    }
}
