//! A command on its way into the history: all memory first, and then the device.

ghost use Rattle.std.specs.Prelude.{◌≡◌, ◌+◌, ◌<◌, ◌≤◌, ◌^◌, ◌∷◌, ◌++◌, ℕ, List, [], length, Option, Some, IsSome, IfOk, IfErr, OnOk, OnErr, is_ok, if◌then◌else◌};
ghost use Rattle.sysapi_base.specs.Outside.{Passes, Grows};
ghost use Rattle.api_records.specs.Storable.{IsStorable};
ghost use Rattle.entry_codec.specs.declared.entry.Entry.{Entry};
ghost use Rattle.entry_codec.specs.Replies.{IsSoundReply};
ghost use Rattle.entry_bytes.specs.Spelling.{entry_bytes};
ghost use Rattle.entry_bytes.specs.Sound.{IsProperEntry};
ghost use Rattle.journal_disk.specs.Disk.{LeavesOnly};
ghost use Rattle.journal_disk.specs.Keeper.{SameFigures, OneMore, NoMore, IsKeptWith};
ghost use Rattle.repo_state.specs.Stands.{front_of};
ghost use Rattle.shared_repo.specs.Stored.{Stores};
ghost use Rattle.shared_repo.specs.Commands.{used_with, Prepares, IsReserved, IsNoFault, IsRefusal, IsKeptOrNew, IsDoubtOf};

use crate::fault::WriteError;
use api_records::Command;
use entry_bytes::encode_command;
use entry_codec::Reply;
use journal_disk::Keeper;
use repo_state::{AcceptError, Accepted, State};
use std::alloc::Global;
use sysapi_base::{Failed, Moment};

/// A command that isn't refused and whose record fits, with all that its acceptance takes memory for.
#[derive(Drop)]
pub(crate) struct Ready {
    /// The state behind it.
    pub(crate) state: State,
    pub(crate) reply: Reply,
    /// Its entry's bytes, for which the keeper has spare.
    pub(crate) bytes: Vec<u8>,
    /// The place of its entry.
    pub(crate) place: u64,
}

/// Judges a command and takes all memory for it. No call of the device is made.
pub(crate) fn prepare<Q: Keeper>(
    alloc: Global,
    keeper: &mut Q,
    state: &State,
    moment: Moment,
    command: &Command,
) -> Result<Ready, WriteError>
    requires count { front_of state.now ≡ (Q.figures keeper.old).count }
    requires storable { IsStorable command.now }
    ensures judged { (history : List Entry) → Stores Q.figures Q.records (record { keeper = keeper.old; state = state.now }) history
        → Prepares Q.costs (Q.figures keeper.old) state.now history (record { moment = moment; command = command.now }) result }
    ensures front { IfOk result (λ ready. front_of ready.state ≡ front_of state.now + 1) }
    ensures sound { IfOk result (λ ready. IsSoundReply ready.reply) }
    ensures bytes { IfOk result (λ ready. ready.bytes.items ≡ entry_bytes (record { moment = moment; command = command.now })) }
    ensures proper { OnOk result (IsProperEntry (record { moment = moment; command = command.now })) }
    ensures some { IfOk result (λ ready. 0 < length ready.bytes.items) }
    ensures size { IfOk result (λ ready. length ready.bytes.items ≤ 2 ^ 27) }
    ensures spare { IfOk result (λ ready. length ready.bytes.items ≤ (Q.figures keeper.new).spare) }
    ensures no_fault { IfErr result IsNoFault }
    ensures refused { IfErr result (λ why. IsRefusal why → keeper.new ≡ keeper.old) }
    ensures reserved { IsReserved Q.figures Q.records Q.doubted keeper.old keeper.new }
    ensures fits { IfOk result (λ ready. (Q.figures keeper.new).used + Q.costs (length ready.bytes.items) ≤ (Q.figures keeper.new).room) }
    ensures any_moment { (kept : List (List ℕ)) → Q.records keeper.old ≡ Some kept
        → LeavesOnly Q.moment Q.images_since keeper.old keeper.new (IsKeptWith kept (Q.doubted keeper.old)) }
    ensures faults { Q.faults keeper.new ≡ Q.faults keeper.old }
    ensures steady { Q.IsSteady keeper.old → Q.IsSteady keeper.new }
{
    // This tells what a crash leaves before the first call of the device.
    let _doubt = keeper.has_doubt();
    let place = keeper.count();
    let Accepted { state, reply } = match state.accept(alloc, moment, command) {
        Ok(accepted) => accepted,
        Err(AcceptError::Refused(refusal)) => {
            return Err(WriteError::Refused {
                refusal,
                point: place,
            });
        }
        Err(AcceptError::Memory) => return Err(WriteError::Memory),
    };
    let bytes = encode_command(alloc, moment, command)?;
    let len = bytes.len() as u32;
    keeper.reserve(len)?;
    let needed = needed_for(keeper, len);
    let room = keeper.room();
    if room < needed {
        return Err(WriteError::Full { needed, room });
    }
    Ok(Ready {
        state,
        reply,
        bytes,
        place,
    })
}

/// How many bytes would be used with a record of this length.
fn needed_for<Q: Keeper>(keeper: &Q, len: u32) -> u64
    requires { len ≤ 2 ^ 27 }
    ensures { result ≡ (Q.figures keeper.now).used + Q.costs len }
{
    // The count bounds what is used, so that the sum fits.
    let _count = keeper.count();
    keeper.used() + keeper.cost(len)
}

/// Settles a record in doubt, and appends the new one. It takes no memory.
pub(crate) fn keep<Q: Keeper>(keeper: &mut Q, bytes: &[u8]) -> Result<(), Failed>
    requires some { 0 < length bytes.now }
    requires size { length bytes.now ≤ 2 ^ 27 }
    requires spare { length bytes.now ≤ (Q.figures keeper.old).spare }
    requires room { (Q.figures keeper.old).used + Q.costs (length bytes.now) ≤ (Q.figures keeper.old).room }
    ensures records { Grows (Q.records keeper.old) (Q.records keeper.new) (if is_ok result then bytes.now ∷ [] else []) }
    ensures more { OnOk result (OneMore (Q.costs (length bytes.now)) (Q.figures keeper.old) (Q.figures keeper.new)) }
    ensures no_more { OnErr result (NoMore (Q.figures keeper.old) (Q.figures keeper.new)) }
    ensures any_moment { (kept : List (List ℕ)) → Q.records keeper.old ≡ Some kept → IsSome (Q.records keeper.new)
        → LeavesOnly Q.moment Q.images_since keeper.old keeper.new (IsKeptOrNew kept (Q.doubted keeper.old) bytes.now) }
    ensures kept { OnOk result ((kept : List (List ℕ)) → Q.records keeper.old ≡ Some kept → IsSome (Q.records keeper.new)
        → (image : Option (List (List ℕ))) → Q.images keeper.new image → image ≡ Some (kept ++ bytes.now ∷ [])) }
    ensures doubted { IsDoubtOf (Q.doubted keeper.old) bytes.now (Q.doubted keeper.new) }
    ensures passes { Passes Q.faults Q.IsSteady keeper.old keeper.new result }
{
    keeper.settle()?;
    keeper.append(bytes)
}
