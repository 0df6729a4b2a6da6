//! The routes of paths.

ghost use Rattle.std.specs.Prelude.{◌≡◌, IfOk, IfSome, Some, None, MatchOption};
ghost use Rattle.matchit.specs.Params.{AllText};
ghost use Rattle.matchit.specs.Router.{RouteOf};
ghost use Rattle.matchit.specs.Seek.{first};
ghost use Rattle.api_rest.specs.Paths.{pattern, with_route, table, taken, parts_of};

use matchit::{Params, Router};
use std::alloc::Global;
use std::marker::Model;
use sysapi_base::Memory;

/// What a path names.
#[derive(Clone, Copy)]
pub enum Route {
    /// All projects.
    Projects,
    /// A project.
    Project,
    /// All branches of a project.
    Branches,
    /// A branch of a project.
    Branch,
    /// All tags of a project.
    Tags,
    /// A tag of a project.
    Tag,
    /// The commits of a project.
    Commits,
    /// A commit of a project.
    Commit,
    /// All changes of a commit.
    Changes,
    /// A change of a commit.
    Change,
    /// An element as a commit has it.
    Element,
}

// The routes in the order in which they are added.
const ROUTES: [Route; 11] = [
    Route::Projects,
    Route::Project,
    Route::Branches,
    Route::Branch,
    Route::Tags,
    Route::Tag,
    Route::Commits,
    Route::Commit,
    Route::Changes,
    Route::Change,
    Route::Element,
];

/// The paths of a route, with a name in braces for each part that is an id.
fn pattern(route: Route) -> &'static str
    ensures { result.now ≡ pattern route }
{
    match route {
        Route::Projects => "/projects",
        Route::Project => "/projects/{projectId}",
        Route::Branches => "/projects/{projectId}/branches",
        Route::Branch => "/projects/{projectId}/branches/{branchId}",
        Route::Tags => "/projects/{projectId}/tags",
        Route::Tag => "/projects/{projectId}/tags/{tagId}",
        Route::Commits => "/projects/{projectId}/commits",
        Route::Commit => "/projects/{projectId}/commits/{commitId}",
        Route::Changes => "/projects/{projectId}/commits/{commitId}/changes",
        Route::Change => "/projects/{projectId}/commits/{commitId}/changes/{changeId}",
        Route::Element => "/projects/{projectId}/commits/{commitId}/elements/{elementId}",
    }
}

// Adds a route. The patterns are well formed and none conflicts with another, so an error is want of memory.
fn add(router: &mut Router<Route>, route: Route) -> Result<(), Memory>
    ensures { IfOk result (λ _. router.new ≡ with_route router.old route) }
{
    match router.insert(pattern(route), route) {
        Ok(()) => Ok(()),
        Err(_) => Err(Memory),
    }
}

/// The routes, each under its pattern.
#[derive(Drop)]
pub struct Routes {
    router: Router<Route>,
}

impl Model for Routes {
    ghost use Rattle.std.specs.Prelude.{◌≡◌};
    ghost use Rattle.api_rest.specs.Paths.{table};

    ghost Value = { Unit {0} };

    ghost view = { λ _. tt };

    ghost invariant = { λ a. a.router ≡ table };
}

impl Routes {
    /// The routes. The only error is want of memory.
    pub fn new(alloc: Global) -> Result<Routes, Memory> {
        let mut router = Router::new(alloc);
        for route in ROUTES {
            add(&mut router, route)?;
        }
        Ok(Routes { router })
    }

    /// The route of a path, and the parts of the path by their names. None where the path has no route.
    pub(crate) fn find<'a, 'p>(&'a self, path: &'p str) -> Option<(Route, Params<'a, 'p>)>
        ensures found { MatchOption result (first table path.now ≡ None) (λ found. (row : RouteOf Route) × (first table path.now ≡ Some row) × (row.value ≡ found.0) × (taken row path.now ≡ parts_of found.1)) }
        ensures text { IfSome result (λ found. AllText (parts_of found.1)) }
    {
        match self.router.at(path) {
            Ok(found) => Some((*found.value, found.params)),
            Err(_) => None,
        }
    }
}
