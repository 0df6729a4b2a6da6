use crate::answer;
use api_records::Command;
use entry_codec::{ReadCall, Reply};
use repo_state::State;
use std::alloc::Global;
use std::test::Fail;
use sysapi_base::{Id, Moment};

/// A state with one project.
fn one_project(alloc: Global) -> Result<State, Fail> {
    let command = Command::CreateProject {
        name: None,
        description: None,
    };
    let start = State::start(alloc, 1);
    let Ok(accepted) = start.accept(alloc, Moment::at_most(0), &command) else {
        return Err("the project is not accepted".into());
    };
    Ok(accepted.state)
}

#[test]
fn a_shared_state_answers_alike(rt: HostRuntime) -> Result<(), Fail> {
    let alloc = rt.alloc();
    let state = one_project(alloc)?;
    let shared = state.share().or(Err("no memory"))?;
    drop(state);
    let call = ReadCall::OneProject {
        project: Id::made(1, 0),
    };
    let reply = answer(alloc, &shared, &call).or(Err("no memory"))?;
    assert!(rt; matches!(&reply, Reply::Found(_)));
    Ok(())
}
