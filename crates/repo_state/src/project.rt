//! Projects are made, updated and ended.

ghost use Rattle.std.specs.Prelude.{◌≡◌, ◌<◌, ◌^◌, IfOk};
ghost use Rattle.entry_codec.specs.Replies.{IsSoundReply};
ghost use Rattle.repo_state.specs.Shown.{Follows, Judges};

use crate::accept::{AcceptError, Accepted};
use crate::number::LAST_SERIAL;
use crate::state::State;
use api_records::{Branch, Command, Project, Refusal};
use entry_codec::Reply;
use std::alloc::Global;
use sysapi_base::{Id, Memory, Moment, Text};

/// An equal text, if there is one.
pub(crate) fn copy_optional(alloc: Global, content: &Option<Text>) -> Result<Option<Text>, Memory>
    ensures { IfOk result (λ copy. copy ≡ content.now) }
{
    match content {
        Some(content) => Ok(Some(content.copy(alloc)?)),
        None => Ok(None),
    }
}

impl State {
    /// The state with a new project and its default branch, and the reply.
    pub(crate) fn create_project(
        &self,
        alloc: Global,
        moment: Moment,
        name: &Option<Text>,
        description: &Option<Text>,
    ) -> Result<Accepted, Memory>
        requires { self.now.front < 2 ^ 60 }
        ensures follows { IfOk result (λ a. Follows self.now (record { moment = moment; command = Command.CreateProject name.now description.now }) a) }
        ensures sound { IfOk result (λ a. IsSoundReply a.reply) }
    {
        if self.next >= LAST_SERIAL {
            return Err(Memory);
        }
        let id = Id::made(self.repository, self.next);
        let branch_id = Id::made(self.repository, self.next + 1);
        let project = Project {
            id,
            name: copy_optional(alloc, name)?,
            description: copy_optional(alloc, description)?,
            default_branch: branch_id,
            created: moment,
        };
        let branch = Branch {
            id: branch_id,
            project: id,
            name: None,
            head: None,
            created: moment,
        };
        let reply = project.to_doc(alloc)?;
        let mut state = self.at_next(self.next + 2)?;
        state.set_project(alloc, id, Some(project))?;
        state.set_branch(alloc, branch_id, Some(branch))?;
        Ok(Accepted {
            state,
            reply: Reply::Made(reply),
        })
    }

    /// The state with another name, another description and, where one is given, another default branch of a project, and the reply;
    /// or why it is refused.
    pub(crate) fn update_project(
        &self,
        alloc: Global,
        moment: Moment,
        project: Id,
        name: &Option<Text>,
        description: &Option<Text>,
        default_branch: Option<Id>,
    ) -> Result<Accepted, AcceptError>
        requires { self.now.front < 2 ^ 60 }
        ensures judged { Judges self.now (record { moment = moment; command = Command.UpdateProject project name.now description.now default_branch }) result }
        ensures sound { IfOk result (λ a. IsSoundReply a.reply) }
    {
        let Some(found) = self.projects.at(project, self.front) else {
            return Err(AcceptError::Refused(Refusal::UnknownProject));
        };
        if let Some(why) = self.unknown_default(project, default_branch) {
            return Err(AcceptError::Refused(why));
        }
        let updated = Project {
            id: found.id,
            name: copy_optional(alloc, name)?,
            description: copy_optional(alloc, description)?,
            default_branch: default_branch.unwrap_or(found.default_branch),
            created: found.created,
        };
        let reply = updated.to_doc(alloc)?;
        let mut state = self.at_next(self.next)?;
        state.set_project(alloc, project, Some(updated))?;
        Ok(Accepted {
            state,
            reply: Reply::Found(reply),
        })
    }

    /// The state in which a project has ended, and the reply; or why it is refused.
    pub(crate) fn delete_project(
        &self,
        alloc: Global,
        moment: Moment,
        project: Id,
    ) -> Result<Accepted, AcceptError>
        requires { self.now.front < 2 ^ 60 }
        ensures judged { Judges self.now (record { moment = moment; command = Command.DeleteProject project }) result }
        ensures sound { IfOk result (λ a. IsSoundReply a.reply) }
    {
        let Some(found) = self.projects.at(project, self.front) else {
            return Err(AcceptError::Refused(Refusal::UnknownProject));
        };
        let reply = found.to_doc(alloc)?;
        let mut state = self.at_next(self.next)?;
        state.set_project(alloc, project, None)?;
        Ok(Accepted {
            state,
            reply: Reply::Found(reply),
        })
    }
}
