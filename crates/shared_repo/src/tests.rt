//! What no clause says: the worked rows and good paths.

ghost use Rattle.std.specs.Prelude.{◌<◌, ◌≤◌, ◌^◌, length};

use crate::{Repo, WriteError};
use api_records::Command;
use entry_codec::Entry;
use journal_disk::{Keeper, MemoryKeeper, OpenFault};
use repo_state::{Kind, State, StateOpen};
use std::alloc::Global;
use std::slice;
use std::test::Fail;
use sysapi_base::{Id, Moment, Text};

/// The year 2000 begins.
const NOW: u64 = 946_684_800_000;

/// The entry of a project `P` that is made then.
const ENTRY: [u8; 16] = [
    0, 0, 0, 0xdc, 0x6a, 0xcf, 0xac, 0, 1, 1, 0, 0, 0, 1, 0x50, 0,
];

/// What a command answered.
#[derive(Clone, Copy, Debug, PartialEq, Eq)]
enum Answer {
    Written(u64),
    Refused(u64),
    Fault,
    Full(u64, u64),
    Memory,
}

/// What a command, which can be stored, answers.
fn answered(
    alloc: Global,
    repo: &mut Repo<MemoryKeeper>,
    command: &Command,
) -> Result<Answer, Fail> {
    if !command.is_storable() {
        return Err(Fail::from("the command can be stored"));
    }
    Ok(match repo.command(alloc, Moment::at_most(NOW), command) {
        Ok(written) => Answer::Written(written.place),
        Err(WriteError::Refused { point, .. }) => Answer::Refused(point),
        Err(WriteError::Fault) => Answer::Fault,
        Err(WriteError::Full { needed, room }) => Answer::Full(needed, room),
        Err(WriteError::Memory) => Answer::Memory,
    })
}

/// What the command answers that makes a project `P`.
fn make(alloc: Global, repo: &mut Repo<MemoryKeeper>) -> Result<Answer, Fail> {
    let name = Some(Text::of(String::from_str(alloc, "P")?));
    let description = None;
    answered(alloc, repo, &Command::CreateProject { name, description })
}

/// What the command answers that deletes the first project.
fn delete(alloc: Global, repo: &mut Repo<MemoryKeeper>) -> Result<Answer, Fail> {
    let project = Id::made(1, 0);
    answered(alloc, repo, &Command::DeleteProject { project })
}

/// What two commands answer that make projects over this keeper, and then how much is used.
fn made(alloc: Global, keeper: MemoryKeeper) -> Result<(Answer, Answer, u64), Fail> {
    let Ok(mut repo) = Repo::open(alloc, keeper) else {
        return Err(Fail::from("it is opened"));
    };
    let first = make(alloc, &mut repo)?;
    let second = make(alloc, &mut repo)?;
    Ok((first, second, repo.into_keeper().used()))
}

/// How many entries a repository has over a keeper with this record, or why none is opened.
fn front(alloc: Global, bytes: &[u8]) -> Result<Result<u64, OpenFault>, Fail>
    requires some { 0 < length bytes.now }
    requires size { length bytes.now ≤ 2 ^ 20 }
{
    let mut keeper = MemoryKeeper::new(alloc, 1, 1 << 30);
    keeper.reserve(bytes.len() as u32)?;
    if keeper.append(bytes).is_err() {
        return Err(Fail::from("the record is kept"));
    }
    Ok(match Repo::open(alloc, keeper) {
        Ok(repo) => Ok(repo.state().front()),
        Err(stopped) => Err(stopped.why),
    })
}

/// What is told of a state that is opened with the entry of this command alone: how many entries it has, and the branches of the
/// first project. Or the place of the entry that is refused.
fn opened(alloc: Global, command: Command) -> Result<Result<(u64, Vec<Id>), u64>, Fail> {
    if !command.is_storable() {
        return Err(Fail::from("the command can be stored"));
    }
    let moment = Moment::at_most(NOW);
    let entry = Entry { moment, command };
    match State::open(alloc, 1, slice::from_ref(&entry)) {
        Ok(state) => {
            let branches = state.list(alloc, Kind::Branches, Some(Id::made(1, 0)), 1)?;
            Ok(Ok((state.front(), branches)))
        }
        Err(StateOpen::NotAcceptable { place }) => Ok(Err(place)),
        Err(StateOpen::Memory) => Err(Fail::from("there is memory")),
    }
}

#[test]
fn states_of_one_entry(rt: HostRuntime) -> Result<(), Fail> {
    let alloc = rt.alloc();
    let project = Id::made(1, 0);
    let refused = opened(alloc, Command::DeleteProject { project })?;
    assert_eq!(rt; refused.err(), Some(0));
    let name = Some(Text::of(String::from_str(alloc, "P")?));
    let description = None;
    let Ok((front, branches)) = opened(alloc, Command::CreateProject { name, description })? else {
        return Err(Fail::from("it is opened"));
    };
    assert_eq!(rt; front, 1);
    assert_eq!(rt; branches.as_slice(), [Id::made(1, 1)].as_slice());
    Ok(())
}

#[test]
fn records_are_entries_or_damage(rt: HostRuntime) -> Result<(), Fail> {
    let alloc = rt.alloc();
    // The project that this entry deletes isn't there.
    let mut deleted = [0; 25];
    deleted[8] = 3;
    let damaged = Err(OpenFault::Damaged { place: 0 });
    assert_eq!(rt; front(alloc, &ENTRY)?, Ok(1));
    assert_eq!(rt; front(alloc, &[0])?, damaged);
    assert_eq!(rt; front(alloc, &deleted)?, damaged);
    Ok(())
}

#[test]
fn the_room_is_used_to_its_last_byte(rt: HostRuntime) -> Result<(), Fail> {
    let alloc = rt.alloc();
    let room = MemoryKeeper::new(alloc, 1, 58);
    let full = Answer::Full(59, 58);
    assert_eq!(rt; made(alloc, room)?, (Answer::Written(0), full, 38));
    let room = MemoryKeeper::new(alloc, 1, 59);
    assert_eq!(rt;
        made(alloc, room)?,
        (Answer::Written(0), Answer::Written(1), 59)
    );
    Ok(())
}

#[test]
fn a_fault_keeps_nothing(rt: HostRuntime) -> Result<(), Fail> {
    let alloc = rt.alloc();
    let failing = MemoryKeeper::new(alloc, 1, 1000).failing(vec![in alloc; 0]?);
    assert_eq!(rt;
        made(alloc, failing)?,
        (Answer::Fault, Answer::Written(0), 38)
    );
    Ok(())
}

#[test]
fn a_refused_command_keeps_nothing(rt: HostRuntime) -> Result<(), Fail> {
    let alloc = rt.alloc();
    let Ok(mut repo) = Repo::open(alloc, MemoryKeeper::new(alloc, 1, 1000)) else {
        return Err(Fail::from("it is opened"));
    };
    assert_eq!(rt; delete(alloc, &mut repo)?, Answer::Refused(0));
    assert_eq!(rt; make(alloc, &mut repo)?, Answer::Written(0));
    assert_eq!(rt; delete(alloc, &mut repo)?, Answer::Written(1));
    assert_eq!(rt; delete(alloc, &mut repo)?, Answer::Refused(2));
    Ok(())
}
