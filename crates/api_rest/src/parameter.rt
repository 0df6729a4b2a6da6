//! The parameters of a query.

ghost use Rattle.std.specs.Prelude.{◌≡◌, IfOk};
ghost use Rattle.api_rest.specs.Parameters.{bad_branch, branch_of};
ghost use Rattle.api_rest.specs.Routes.{Gives};

use crate::error::RestError;
use std::alloc::Global;
use sysapi_base::{Id, Memory, Text};

/// The error of a branch that is named twice, or by no id's text.
fn bad_branch(alloc: Global) -> Result<RestError, Memory>
    ensures { IfOk result (λ e. e ≡ bad_branch) }
{
    Ok(RestError::BadParameter {
        key: Text::of(String::from_str(alloc, "branchId")?),
    })
}

/// The branch that a query names. `BadParameter` comes where it is named twice, or by no id's text. Other parameters are ignored.
pub(crate) fn branch_of(alloc: Global, query: &str) -> Result<Option<Id>, RestError>
    ensures { Gives result (branch_of query.now) }
{
    let mut branch = None;
    for pair in form_urlencoded::parse(alloc, query.as_bytes()) {
        let (name, value) = pair?;
        if name.as_str() == "branchId" {
            if branch.is_some() {
                return Err(bad_branch(alloc)?);
            }
            branch = Id::parse(value.as_str());
            if branch.is_none() {
                return Err(bad_branch(alloc)?);
            }
        }
    }
    Ok(branch)
}
