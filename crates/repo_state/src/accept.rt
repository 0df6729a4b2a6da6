ghost use Rattle.std.specs.Prelude.{◌≡◌, ◌+◌, ◌<◌, ◌^◌, List, IfOk};
ghost use Rattle.api_records.specs.Storable.{IsStorable};
ghost use Rattle.entry_codec.specs.Replies.{IsSoundReply};
ghost use Rattle.entry_codec.specs.declared.entry.Entry.{Entry};
ghost use Rattle.repo_state.specs.Stands.{StandsFor, Accepts, front_of};

use crate::state::State;
use api_records::{Command, Refusal};
use entry_codec::Reply;
use std::alloc::Global;
use sysapi_base::Moment;

/// The state behind a command, and the reply to it.
#[derive(Drop)]
pub struct Accepted {
    pub state: State,
    pub reply: Reply,
}

/// Why a command isn't accepted.
#[derive(Debug, Drop)]
pub enum AcceptError {
    /// It is refused.
    Refused(Refusal),
    /// No memory was found.
    Memory,
}

impl From<sysapi_base::Memory> for AcceptError {
    ghost use Rattle.std.specs.Prelude.{◌≡◌};
    ghost use Rattle.repo_state.specs.declared.accept.AcceptError.TheVariants as error;

    ghost from_gives = { λ _ e. e ≡ error.Memory };

    fn from(_error: sysapi_base::Memory) -> AcceptError {
        AcceptError::Memory
    }
}

impl State {
    /// The state behind a command that is judged at this moment, and the reply to it; or why it is refused. This state stays as it is.
    /// Want of memory is also answered for a command whose serials would pass 2^62 - 2^16.
    pub fn accept(
        &self,
        alloc: Global,
        moment: Moment,
        command: &Command,
    ) -> Result<Accepted, AcceptError>
        requires front { front_of self.now < 2 ^ 60 }
        requires storable { IsStorable command.now }
        ensures exact { (past : List Entry) → StandsFor self.now past → Accepts self.now past (record { moment = moment; command = command.now }) result }
        ensures sound { IfOk result (λ a. IsSoundReply a.reply) }
        ensures more { IfOk result (λ a. front_of a.state ≡ front_of self.now + 1) }
    {
        match command {
            Command::CreateProject { name, description } => {
                Ok(self.create_project(alloc, moment, name, description)?)
            }
            Command::UpdateProject {
                project,
                name,
                description,
                default_branch,
            } => self.update_project(alloc, moment, *project, name, description, *default_branch),
            Command::DeleteProject { project } => self.delete_project(alloc, moment, *project),
            Command::CreateCommit {
                project,
                branch,
                previous,
                description,
                changes,
            } => self.create_commit(
                alloc,
                moment,
                *project,
                *branch,
                previous,
                description,
                changes,
            ),
            Command::CreateBranch {
                project,
                name,
                head,
            } => self.create_branch(alloc, moment, *project, name, *head),
            Command::DeleteBranch { project, branch } => {
                self.delete_branch(alloc, moment, *project, *branch)
            }
            Command::CreateTag {
                project,
                name,
                commit,
            } => self.create_tag(alloc, moment, *project, name, *commit),
            Command::DeleteTag { project, tag } => self.delete_tag(alloc, moment, *project, *tag),
        }
    }
}
