//! What the methods do at the routes.

ghost use Rattle.std.specs.Prelude.{◌≡◌};
ghost use Rattle.api_rest.specs.Asked.{methods, reads, reads_and_writes, reads_and_deletes, operation_in, joined};

use crate::routes::Route;
use api_records::BodyKind;

/// What can be deleted.
#[derive(Clone, Copy)]
pub(crate) enum Deleted {
    Project,
    Branch,
    Tag,
}

/// What a method does at a route.
#[derive(Clone, Copy)]
pub(crate) enum Operation {
    /// It looks up what the path names.
    Read,
    /// It makes or changes what a body of this kind tells.
    Write(BodyKind),
    /// It deletes what the path names.
    Delete(Deleted),
}

fn reads(method: &str) -> Option<Operation>
    ensures { result ≡ operation_in method.now reads }
{
    match method {
        "GET" => Some(Operation::Read),
        _ => None,
    }
}

fn reads_or_writes(method: &str, kind: BodyKind) -> Option<Operation>
    ensures { result ≡ operation_in method.now (reads_and_writes kind) }
{
    match method {
        "GET" => Some(Operation::Read),
        "POST" => Some(Operation::Write(kind)),
        _ => None,
    }
}

fn reads_or_deletes(method: &str, what: Deleted) -> Option<Operation>
    ensures { result ≡ operation_in method.now (reads_and_deletes what) }
{
    match method {
        "GET" => Some(Operation::Read),
        "DELETE" => Some(Operation::Delete(what)),
        _ => None,
    }
}

fn on_project(method: &str) -> Option<Operation>
    ensures { result ≡ operation_in method.now (methods Route.Project) }
{
    match method {
        "GET" => Some(Operation::Read),
        "PUT" => Some(Operation::Write(BodyKind::ProjectUpdate)),
        "DELETE" => Some(Operation::Delete(Deleted::Project)),
        _ => None,
    }
}

/// What a method does at a route. None where the route doesn't take it.
pub(crate) fn operation_of(route: Route, method: &str) -> Option<Operation>
    ensures { result ≡ operation_in method.now (methods route) }
{
    match route {
        Route::Projects => reads_or_writes(method, BodyKind::Project),
        Route::Project => on_project(method),
        Route::Branches => reads_or_writes(method, BodyKind::Branch),
        Route::Branch => reads_or_deletes(method, Deleted::Branch),
        Route::Tags => reads_or_writes(method, BodyKind::Tag),
        Route::Tag => reads_or_deletes(method, Deleted::Tag),
        Route::Commits => reads_or_writes(method, BodyKind::Commit),
        Route::Commit => reads(method),
        Route::Changes => reads(method),
        Route::Change => reads(method),
        Route::Element => reads(method),
    }
}

/// The methods that a route takes, joined by `, `.
pub(crate) fn allowed(route: Route) -> &'static str
    ensures { result.now ≡ joined (methods route) }
{
    match route {
        Route::Projects => "GET, POST",
        Route::Project => "GET, PUT, DELETE",
        Route::Branches => "GET, POST",
        Route::Branch => "GET, DELETE",
        Route::Tags => "GET, POST",
        Route::Tag => "GET, DELETE",
        Route::Commits => "GET, POST",
        Route::Commit => "GET",
        Route::Changes => "GET",
        Route::Change => "GET",
        Route::Element => "GET",
    }
}
