//! The calls of a repository over a keeper.

ghost use Rattle.std.specs.Prelude.{◌≡◌, ◌∷◌, ◌++◌, ℕ, false, List, [], Option, Some, IsSome, IfOk, OnOk};
ghost use Rattle.api_records.specs.Storable.{IsStorable};
ghost use Rattle.entry_codec.specs.declared.entry.Entry.{Entry};
ghost use Rattle.entry_codec.specs.Replies.{IsSoundReply};
ghost use Rattle.entry_bytes.specs.Spelling.{entry_bytes};
ghost use Rattle.journal_disk.specs.Disk.{LeavesOnly};
ghost use Rattle.journal_disk.specs.Faults.{Counts};
ghost use Rattle.shared_repo.specs.Stored.{opened, Stores};
ghost use Rattle.shared_repo.specs.Opening.{IsOnlyRead, OnKeeper, Opens, OpensBy};
ghost use Rattle.shared_repo.specs.Commands.{Commands, IsKeptOrNew, IsDoubtOf};

use crate::commit::{Ready, keep, prepare};
use crate::fault::{RepoOpen, WriteError, Written};
use crate::load::load;
use crate::repo::Repo;
use api_records::Command;
use journal_disk::Keeper;
use repo_state::State;
use std::alloc::Global;
use sysapi_base::Moment;

impl<Q: Keeper> Repo<Q> {
    /// The repository whose entries are the keeper's records. `Fault` comes only where a call of the keeper failed, and `Damaged`
    /// exactly where a record is no entry that is acceptable at its place, with the keeper's place of the first such record. The
    /// keeper is only read.
    pub fn open(alloc: Global, keeper: Q) -> Result<Repo<Q>, RepoOpen<Q>>
        requires { (Q.figures keeper).doubt ≡ false }
        ensures opens { Opens Q.figures Q.places Q.records keeper result }
        ensures counts { OpensBy Q.faults Q.IsSteady keeper result }
        ensures read { OnKeeper result (IsOnlyRead Q.figures Q.places Q.records Q.reading Q.doubted keeper) }
        ensures any_moment { OnKeeper result (λ new. LeavesOnly Q.moment Q.images_since keeper new (Q.images keeper)) }
    {
        let mut keeper = keeper;
        match load(alloc, &mut keeper) {
            Ok(state) => Ok(Repo { keeper, state }),
            Err(why) => Err(RepoOpen { keeper, why }),
        }
    }

    /// What the entries have made.
    pub fn state(&self) -> &State
        ensures { result.now ≡ self.now.state }
    {
        &self.state
    }

    /// The keeper.
    pub fn into_keeper(self) -> Q
        ensures { result ≡ self.keeper }
    {
        self.keeper
    }

    /// Judges a command, and keeps its entry where it is accepted. First it is judged by the refusals; then all memory is taken; then
    /// it is `Full` exactly where its record doesn't fit; then a record in doubt is settled, and the new one is appended. From the
    /// first call of the device on only `Fault` can come, which comes only where a call of the keeper failed.
    pub fn command(
        &mut self,
        alloc: Global,
        moment: Moment,
        command: &Command,
    ) -> Result<Written, WriteError>
        requires { IsStorable command.now }
        ensures judged { (history : List Entry) → Stores Q.figures Q.records (opened self.old) history
            → Commands Q.figures Q.records Q.costs (opened self.old) (opened self.new) history (record { moment = moment; command = command.now }) result }
        ensures sound { IfOk result (λ written. IsSoundReply written.reply) }
        ensures told { IsSome (Q.records self.new.keeper) → IsSome (Q.records self.old.keeper) }
        ensures counts { Counts Q.faults Q.IsSteady WriteError.Fault self.old.keeper self.new.keeper result }
        ensures any_moment { (kept : List (List ℕ)) → Q.records self.old.keeper ≡ Some kept → IsSome (Q.records self.new.keeper)
            → LeavesOnly Q.moment Q.images_since self.old.keeper self.new.keeper
            (IsKeptOrNew kept (Q.doubted self.old.keeper) (entry_bytes (record { moment = moment; command = command.now }))) }
        ensures kept { OnOk result ((kept : List (List ℕ)) → Q.records self.old.keeper ≡ Some kept → IsSome (Q.records self.new.keeper)
            → (image : Option (List (List ℕ))) → Q.images self.new.keeper image
            → image ≡ Some (kept ++ entry_bytes (record { moment = moment; command = command.now }) ∷ [])) }
        ensures doubted { IsDoubtOf (Q.doubted self.old.keeper) (entry_bytes (record { moment = moment; command = command.now })) (Q.doubted self.new.keeper) }
    {
        let Ready {
            state,
            reply,
            bytes,
            place,
        } = prepare(alloc, &mut self.keeper, &self.state, moment, command)?;
        keep(&mut self.keeper, &bytes)?;
        self.state = state;
        Ok(Written { reply, place })
    }
}
