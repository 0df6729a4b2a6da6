//! Branches are made and ended.

ghost use Rattle.std.specs.Prelude.{◌<◌, ◌^◌, IfOk};
ghost use Rattle.entry_codec.specs.Replies.{IsSoundReply};
ghost use Rattle.repo_state.specs.Shown.{Judges};

use crate::accept::{AcceptError, Accepted};
use crate::number::LAST_SERIAL;
use crate::project::copy_optional;
use crate::state::State;
use api_records::{Branch, Command, Refusal};
use entry_codec::Reply;
use std::alloc::Global;
use sysapi_base::{Id, Moment, Text};

impl State {
    /// The state with a new branch of a project, and the reply; or why it is refused.
    pub(crate) fn create_branch(
        &self,
        alloc: Global,
        moment: Moment,
        project: Id,
        name: &Option<Text>,
        head: Option<Id>,
    ) -> Result<Accepted, AcceptError>
        requires { self.now.front < 2 ^ 60 }
        ensures judged { Judges self.now (record { moment = moment; command = Command.CreateBranch project name.now head }) result }
        ensures sound { IfOk result (λ a. IsSoundReply a.reply) }
    {
        if self.projects.at(project, self.front).is_none() {
            return Err(AcceptError::Refused(Refusal::UnknownProject));
        }
        if let Some(why) = self.unknown_head(project, head) {
            return Err(AcceptError::Refused(why));
        }
        if self.next >= LAST_SERIAL {
            return Err(AcceptError::Memory);
        }
        let id = Id::made(self.repository, self.next);
        let branch = Branch {
            id,
            project,
            name: copy_optional(alloc, name)?,
            head,
            created: moment,
        };
        let reply = branch.to_doc(alloc)?;
        let mut state = self.at_next(self.next + 1)?;
        state.set_branch(alloc, id, Some(branch))?;
        Ok(Accepted {
            state,
            reply: Reply::Made(reply),
        })
    }

    /// The state in which a branch of a project has ended, and the reply; or why it is refused.
    pub(crate) fn delete_branch(
        &self,
        alloc: Global,
        moment: Moment,
        project: Id,
        id: Id,
    ) -> Result<Accepted, AcceptError>
        requires { self.now.front < 2 ^ 60 }
        ensures judged { Judges self.now (record { moment = moment; command = Command.DeleteBranch project id }) result }
        ensures sound { IfOk result (λ a. IsSoundReply a.reply) }
    {
        let Some(owner) = self.projects.at(project, self.front) else {
            return Err(AcceptError::Refused(Refusal::UnknownProject));
        };
        let Some(found) = self.project_branch(project, id) else {
            return Err(AcceptError::Refused(Refusal::UnknownBranch));
        };
        if owner.default_branch == id {
            return Err(AcceptError::Refused(Refusal::DefaultBranch));
        }
        let reply = found.to_doc(alloc)?;
        let mut state = self.at_next(self.next)?;
        state.set_branch(alloc, id, None)?;
        Ok(Accepted {
            state,
            reply: Reply::Found(reply),
        })
    }
}
