//! What a request asks for, before its body is read.

ghost use Rattle.std.specs.Prelude.{◌≡◌, ◌≢◌, IfOk, Ok, [], ◌∷◌};
ghost use Rattle.matchit.specs.Params.{AllText};
ghost use Rattle.api_rest.specs.Paths.{parts_of};
ghost use Rattle.api_rest.specs.Asked.{methods, joined, id_at, project_at, two_at, three_at, read_at, write_at, delete_at, asked_by, asked, operation_in};
ghost use Rattle.api_rest.specs.Routes.{Gives, IsReady};

use crate::error::RestError;
use crate::operation::{Deleted, Operation, allowed, operation_of};
use crate::parameter::branch_of;
use crate::routes::{Route, Routes};
use crate::target::path_and_query;
use api_records::{BodyKind, Command};
use entry_codec::{Call, ReadCall};
use http_wire::Request;
use matchit::Params;
use std::alloc::Global;
use sysapi_base::{Id, Ids, Memory, Text};

/// What a request asks for.
#[derive(Drop)]
pub(crate) enum Asked {
    /// A call that takes no body.
    Call(Call),
    /// The command that a body of this kind tells.
    Body {
        kind: BodyKind,
        /// The project, unless one is to be made.
        ids: Ids,
        /// The branch that the query names.
        branch: Option<Id>,
    },
}

/// The id whose text is the part of this name. `BadId` comes where it is no id's text.
fn id_at(alloc: Global, params: &Params<'_, '_>, key: &str) -> Result<Id, RestError>
    requires { AllText (parts_of params.now) }
    ensures { Gives result (id_at key.now (parts_of params.now)) }
{
    if let Some(text) = params.get(key) {
        if let Some(id) = Id::parse(text) {
            return Ok(id);
        }
    }
    Err(RestError::BadId {
        key: Text::of(String::from_str(alloc, key)?),
    })
}

/// The project.
fn project_at(alloc: Global, params: &Params<'_, '_>) -> Result<Id, RestError>
    requires { AllText (parts_of params.now) }
    ensures { Gives result (project_at (parts_of params.now)) }
{
    id_at(alloc, params, "projectId")
}

/// The project, and then the id of this name.
fn two_at(alloc: Global, params: &Params<'_, '_>, key: &str) -> Result<(Id, Id), RestError>
    requires { AllText (parts_of params.now) }
    ensures { Gives result (two_at key.now (parts_of params.now)) }
{
    let project = project_at(alloc, params)?;
    let id = id_at(alloc, params, key)?;
    Ok((project, id))
}

/// The project, then the commit, and then the id of this name.
fn three_at(alloc: Global, params: &Params<'_, '_>, key: &str) -> Result<(Id, Id, Id), RestError>
    requires { AllText (parts_of params.now) }
    ensures { Gives result (three_at key.now (parts_of params.now)) }
{
    let (project, commit) = two_at(alloc, params, "commitId")?;
    let id = id_at(alloc, params, key)?;
    Ok((project, commit, id))
}

/// The look-up of what a path names.
fn read_at(
    alloc: Global,
    route: Route,
    params: &Params<'_, '_>,
    query: &str,
) -> Result<ReadCall, RestError>
    requires { AllText (parts_of params.now) }
    ensures { Gives result (read_at route (parts_of params.now) query.now) }
{
    match route {
        Route::Projects => Ok(ReadCall::Projects),
        Route::Project => {
            let project = project_at(alloc, params)?;
            Ok(ReadCall::OneProject { project })
        }
        Route::Branches => {
            let project = project_at(alloc, params)?;
            Ok(ReadCall::Branches { project })
        }
        Route::Branch => {
            let (project, id) = two_at(alloc, params, "branchId")?;
            Ok(ReadCall::OneBranch { project, id })
        }
        Route::Tags => {
            let project = project_at(alloc, params)?;
            Ok(ReadCall::Tags { project })
        }
        Route::Tag => {
            let (project, id) = two_at(alloc, params, "tagId")?;
            Ok(ReadCall::OneTag { project, id })
        }
        Route::Commits => {
            let project = project_at(alloc, params)?;
            let branch = branch_of(alloc, query)?;
            Ok(ReadCall::Commits { project, branch })
        }
        Route::Commit => {
            let (project, commit) = two_at(alloc, params, "commitId")?;
            Ok(ReadCall::OneCommit { project, commit })
        }
        Route::Changes => {
            let (project, commit) = two_at(alloc, params, "commitId")?;
            Ok(ReadCall::Versions { project, commit })
        }
        Route::Change => {
            let (project, commit, id) = three_at(alloc, params, "changeId")?;
            Ok(ReadCall::OneVersion {
                project,
                commit,
                id,
            })
        }
        Route::Element => {
            let (project, commit, id) = three_at(alloc, params, "elementId")?;
            Ok(ReadCall::OneElement {
                project,
                commit,
                id,
            })
        }
    }
}

/// A body of this kind on a project.
fn body_on(
    alloc: Global,
    kind: BodyKind,
    project: Id,
    branch: Option<Id>,
) -> Result<Asked, RestError>
    requires { kind ≢ BodyKind.Project }
    ensures exact { Gives result (Ok (Asked.Body kind (project ∷ []) branch)) }
    ensures ready { IfOk result IsReady }
{
    let mut ids = Vec::with_capacity(alloc, 1)?;
    ids.push(project)?;
    Ok(Asked::Body {
        kind,
        ids: Ids::of(ids),
        branch,
    })
}

/// What a body of this kind is to make or change.
fn write_at(
    alloc: Global,
    kind: BodyKind,
    params: &Params<'_, '_>,
    query: &str,
) -> Result<Asked, RestError>
    requires { AllText (parts_of params.now) }
    ensures exact { Gives result (write_at kind (parts_of params.now) query.now) }
    ensures ready { IfOk result IsReady }
{
    match kind {
        BodyKind::Project => Ok(Asked::Body {
            kind,
            ids: Ids::of(Vec::new(alloc)),
            branch: None,
        }),
        BodyKind::Commit => {
            let project = project_at(alloc, params)?;
            let branch = branch_of(alloc, query)?;
            body_on(alloc, kind, project, branch)
        }
        _ => {
            let project = project_at(alloc, params)?;
            body_on(alloc, kind, project, None)
        }
    }
}

/// What is to be deleted.
#[tactic(auto, using(api_records::proofs::Lengths::lengths))]
fn delete_at(alloc: Global, what: Deleted, params: &Params<'_, '_>) -> Result<Asked, RestError>
    requires { AllText (parts_of params.now) }
    ensures exact { Gives result (delete_at what (parts_of params.now)) }
    ensures ready { IfOk result IsReady }
{
    let command = match what {
        Deleted::Project => {
            let project = project_at(alloc, params)?;
            Command::DeleteProject { project }
        }
        Deleted::Branch => {
            let (project, branch) = two_at(alloc, params, "branchId")?;
            Command::DeleteBranch { project, branch }
        }
        Deleted::Tag => {
            let (project, tag) = two_at(alloc, params, "tagId")?;
            Command::DeleteTag { project, tag }
        }
    };
    Ok(Asked::Call(Call::Write(command)))
}

/// The error of a method that a route doesn't take.
fn no_method(alloc: Global, route: Route) -> Result<RestError, Memory>
    ensures { IfOk result (λ e. e ≡ RestError.NoMethod (joined (methods route))) }
{
    Ok(RestError::NoMethod {
        allowed: Text::of(String::from_str(alloc, allowed(route))?),
    })
}

/// What a method asks for at a route.
fn asked_by(
    alloc: Global,
    route: Route,
    method: &str,
    params: &Params<'_, '_>,
    query: &str,
) -> Result<Asked, RestError>
    requires { AllText (parts_of params.now) }
    ensures exact { Gives result (asked_by route (operation_in method.now (methods route)) (parts_of params.now) query.now) }
    ensures ready { IfOk result IsReady }
{
    match operation_of(route, method) {
        None => Err(no_method(alloc, route)?),
        Some(Operation::Read) => {
            let call = read_at(alloc, route, params, query)?;
            Ok(Asked::Call(Call::Read(call)))
        }
        Some(Operation::Write(kind)) => write_at(alloc, kind, params, query),
        Some(Operation::Delete(what)) => delete_at(alloc, what, params),
    }
}

/// What a request asks for, before its body is read. Errors come in the order of the error's variants.
pub(crate) fn asked_of(
    alloc: Global,
    routes: &Routes,
    request: &Request,
) -> Result<Asked, RestError>
    ensures exact { Gives result (asked request.now) }
    ensures ready { IfOk result IsReady }
{
    let (path, query) = path_and_query(request.target.as_str());
    match routes.find(path) {
        Some((route, params)) => { asked_by(alloc, route, request.method.as_str(), &params, query) }
        None => Err(RestError::NoRoute),
    }
}
