//! What a request asks for.

ghost use Rattle.std.specs.Prelude.{◌≡◌, Ok, IfOk};
ghost use Rattle.doc_value.specs.Document.{IsSound};
ghost use Rattle.doc_value.specs.Seen.{document};
ghost use Rattle.api_records.specs.Bodies.{HasIds, command_in};
ghost use Rattle.api_records.specs.Storable.{HasRightParts};
ghost use Rattle.entry_codec.specs.declared.call.Call.TheVariants.{Write};
ghost use Rattle.api_rest.specs.Routes.{no_document, written, in_body, called, routed, Gives, IsStorableCall, IsReady};

use crate::asked::{Asked, asked_of};
use crate::error::{BodyError, RestError};
use crate::routes::Routes;
use api_records::{BodyKind, Command, ShapeError};
use doc_value::{Doc, DocError};
use entry_codec::Call;
use http_wire::Request;
use std::alloc::Global;
use sysapi_base::{Id, Ids};

/// Why a body is no document.
fn no_document(error: DocError) -> RestError
    ensures { result ≡ no_document error }
{
    match error {
        DocError::Syntax | DocError::NotUtf8 => RestError::BadBody {
            why: BodyError::BadJson,
        },
        DocError::NotWhole => RestError::BadBody {
            why: BodyError::NotWhole,
        },
        DocError::TooDeep => RestError::BadBody {
            why: BodyError::TooDeep,
        },
        DocError::Memory => RestError::Memory,
    }
}

/// The call of a command, where an entry with it has at most 2^27 bytes. A longer one couldn't be kept, and is answered as want of
/// memory. No body within its limit of 64 MiB is expected to ask for one.
fn in_entry(command: Command) -> Result<Call, RestError>
    requires { HasRightParts command }
    ensures exact { Gives result (Ok (Write command)) }
    ensures storable { IfOk result IsStorableCall }
{
    if !command.is_short() {
        return Err(RestError::Memory);
    }
    Ok(Call::Write(command))
}

/// The command that a document asks for, with the ids of its route.
fn in_document(
    alloc: Global,
    kind: BodyKind,
    ids: &Ids,
    branch: Option<Id>,
    doc: &Doc,
) -> Result<Call, RestError>
    requires ids { HasIds kind ids.now }
    requires sound { IsSound (document doc.now) }
    ensures exact { Gives result (written (command_in kind ids.now branch (document doc.now))) }
    ensures storable { IfOk result IsStorableCall }
{
    match Command::from_body(alloc, kind, doc, ids, branch) {
        Ok(command) => in_entry(command),
        Err(ShapeError::BadShape { key }) => Err(RestError::BadBody {
            why: BodyError::BadShape { key },
        }),
        Err(ShapeError::Memory) => Err(RestError::Memory),
    }
}

/// The command that a body asks for, with the ids of its route.
fn in_body(
    alloc: Global,
    kind: BodyKind,
    ids: &Ids,
    branch: Option<Id>,
    body: &[u8],
) -> Result<Call, RestError>
    requires { HasIds kind ids.now }
    ensures exact { Gives result (in_body kind ids.now branch body.now) }
    ensures storable { IfOk result IsStorableCall }
{
    match Doc::read(alloc, body) {
        Ok(doc) => in_document(alloc, kind, ids, branch, &doc),
        Err(error) => Err(no_document(error)),
    }
}

/// The call of what is asked for.
fn called(alloc: Global, asked: Asked, body: &[u8]) -> Result<Call, RestError>
    requires { IsReady asked }
    ensures exact { Gives result (called body.now asked) }
    ensures storable { IfOk result IsStorableCall }
{
    match asked {
        Asked::Call(call) => Ok(call),
        Asked::Body { kind, ids, branch } => in_body(alloc, kind, &ids, branch, body),
    }
}

/// The call of a request, or why it asks for none. Errors come in the order of the error's variants. A body of one whose call takes
/// none is ignored. The command of a call can be stored. `Memory` comes where memory is wanting, or for a command whose entry would have
/// more than 2^27 bytes.
pub fn route(alloc: Global, routes: &Routes, request: &Request) -> Result<Call, RestError>
    ensures exact { Gives result (routed request.now) }
    ensures storable { IfOk result IsStorableCall }
{
    let asked = asked_of(alloc, routes, request)?;
    called(alloc, asked, request.body.as_slice())
}
