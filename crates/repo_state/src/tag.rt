//! Tags are made and ended.

ghost use Rattle.std.specs.Prelude.{◌<◌, ◌^◌, IfOk};
ghost use Rattle.entry_codec.specs.Replies.{IsSoundReply};
ghost use Rattle.repo_state.specs.Shown.{Judges};

use crate::accept::{AcceptError, Accepted};
use crate::number::LAST_SERIAL;
use crate::project::copy_optional;
use crate::state::State;
use api_records::{Command, Refusal, Tag};
use entry_codec::Reply;
use std::alloc::Global;
use sysapi_base::{Id, Moment, Text};

impl State {
    /// The state with a new tag of a project, and the reply; or why it is refused.
    pub(crate) fn create_tag(
        &self,
        alloc: Global,
        moment: Moment,
        project: Id,
        name: &Option<Text>,
        commit: Id,
    ) -> Result<Accepted, AcceptError>
        requires { self.now.front < 2 ^ 60 }
        ensures judged { Judges self.now (record { moment = moment; command = Command.CreateTag project name.now commit }) result }
        ensures sound { IfOk result (λ a. IsSoundReply a.reply) }
    {
        if self.projects.at(project, self.front).is_none() {
            return Err(AcceptError::Refused(Refusal::UnknownProject));
        }
        if self.project_commit(project, commit).is_none() {
            return Err(AcceptError::Refused(Refusal::UnknownCommit));
        }
        if self.next >= LAST_SERIAL {
            return Err(AcceptError::Memory);
        }
        let id = Id::made(self.repository, self.next);
        let tag = Tag {
            id,
            project,
            name: copy_optional(alloc, name)?,
            commit,
            created: moment,
        };
        let reply = tag.to_doc(alloc)?;
        let mut state = self.at_next(self.next + 1)?;
        state.set_tag(alloc, id, Some(tag))?;
        Ok(Accepted {
            state,
            reply: Reply::Made(reply),
        })
    }

    /// The state in which a tag of a project has ended, and the reply; or why it is refused.
    pub(crate) fn delete_tag(
        &self,
        alloc: Global,
        moment: Moment,
        project: Id,
        id: Id,
    ) -> Result<Accepted, AcceptError>
        requires { self.now.front < 2 ^ 60 }
        ensures judged { Judges self.now (record { moment = moment; command = Command.DeleteTag project id }) result }
        ensures sound { IfOk result (λ a. IsSoundReply a.reply) }
    {
        if self.projects.at(project, self.front).is_none() {
            return Err(AcceptError::Refused(Refusal::UnknownProject));
        }
        let Some(found) = self.project_tag(project, id) else {
            return Err(AcceptError::Refused(Refusal::UnknownTag));
        };
        let reply = found.to_doc(alloc)?;
        let mut state = self.at_next(self.next)?;
        state.set_tag(alloc, id, None)?;
        Ok(Accepted {
            state,
            reply: Reply::Found(reply),
        })
    }
}
