//! One turn of a session: the request at the front is answered, or more is read.

ghost use Rattle.std.specs.Prelude.{◌≡◌, ◌≢◌, ◌<◌, ◌⊎◌, ℕ, List, [], Result, Ok, IsErr, IfOk, OnOk, length};
ghost use Rattle.sysapi_base.specs.Outside.{Grows, Passes};
ghost use Rattle.http_wire.specs.Fronts.{refused, IsFront};
ghost use Rattle.http_wire.specs.Responses.{HasPhrase, response_text};
ghost use Rattle.api_records.specs.Storable.{IsStorable};
ghost use Rattle.entry_codec.specs.declared.entry.Entry.{Entry as Accept};
ghost use Rattle.entry_codec.specs.declared.call.Call.{Call as Asked};
ghost use Rattle.entry_codec.specs.Replies.{IsSoundReply, reply};
ghost use Rattle.repo_state.specs.Stands.{StandsFor, repository_of};
ghost use Rattle.api_rest.specs.declared.error.RestError.{RestError as RestFault};
ghost use Rattle.api_rest.specs.Routes.{IsError, IsStorableCall, routed};
ghost use Rattle.sysapi_serve.specs.Kept.{Leads, IsSteadyRepo, GoesOn};
ghost use Rattle.sysapi_serve.specs.Texts.{reply_text, error_text, text_of, wire_text};
ghost use Rattle.sysapi_serve.specs.Parts.{Judges, Sent, Sends, Closes, CutsAnswer, TurnDoes, FeedDoes, ReadDoes, IsGotWithin, status_of, turn_result, more_result, write_result};

use crate::outcome::Outcome;
use crate::send::send;
use api_records::Command;
use api_rest::{RestError, Routes, is_head, respond, respond_error, respond_wire, route};
use entry_codec::{Call, ReadCall, Reply};
use http_wire::{Feed, Request, WireError, fixed_response, write_response};
use journal_disk::Keeper;
use repo_state::State;
use shared_repo::{Repo, WriteError, Written};
use std::alloc::Global;
use sysapi_base::{Bytes, Clock, Failed, Memory, Moment, Sink, Source};

/// What became of the front of the feed.
pub(crate) enum Turn {
    Answered,
    Waits,
    Ends(Outcome),
}

/// What stands in place of a response.
#[derive(Clone, Copy)]
pub(crate) enum Instead {
    /// A call of the keeper failed: 500.
    Fault,
    /// The record of the command doesn't fit: 507.
    Full,
    /// No memory was found: 503.
    Memory,
}

impl Instead {
    /// The status of the fixed response.
    fn status(self) -> u16
        ensures { result ≡ status_of self }
    {
        match self {
            Instead::Fault => 500,
            Instead::Full => 507,
            Instead::Memory => 503,
        }
    }
}

impl From<Memory> for Instead {
    ghost use Rattle.std.specs.Prelude.{◌≡◌};
    ghost use Rattle.sysapi_serve.specs.declared.turn.Instead.TheVariants as Instead;

    ghost from_gives = { λ _ e. e ≡ Instead.Memory };

    fn from(_error: Memory) -> Instead {
        Instead::Memory
    }
}

/// What a read gave.
pub(crate) enum More {
    Got(u64),
    End,
    Fault,
    NoMemory,
}

/// The bytes that tell a reply. Its document is let go before they are joined.
fn reply_text(
    alloc: Global,
    request: &Request,
    reply: Reply,
    moment: Moment,
) -> Result<Vec<u8>, Memory>
    requires { IsSoundReply reply }
    ensures { IfOk result (λ text. text.items ≡ reply_text request.now moment reply) }
{
    let response = respond(alloc, request, reply, moment)?;
    write_response(alloc, &response)
}

/// The bytes that answer a command. Its entry is kept by then where it is accepted; for its response there may be no memory even so.
fn write<Q: Keeper>(
    alloc: Global,
    repo: &mut Repo<Q>,
    request: &Request,
    moment: Moment,
    command: &Command,
) -> Result<Vec<u8>, Instead>
    requires { IsStorable command.now }
    ensures judges { Leads Q.figures Q.records Q.faults repo.old repo.new
        (Judges (λ v. v.items) Q.costs (IsSteadyRepo Q.IsSteady repo.old) request.now moment (Ok (Call.Write command.now)) result) }
    ensures keeper { GoesOn Q.records Q.faults Q.IsSteady repo.old repo.new }
{
    match repo.command(alloc, moment, command) {
        Ok(Written { reply, .. }) => Ok(reply_text(alloc, request, reply, moment)?),
        Err(WriteError::Refused { refusal, .. }) => {
            let reply = Reply::Refused(refusal);
            Ok(reply_text(alloc, request, reply, moment)?)
        }
        Err(WriteError::Fault) => Err(Instead::Fault),
        Err(WriteError::Full { .. }) => Err(Instead::Full),
        Err(WriteError::Memory) => Err(Instead::Memory),
    }
}

/// The bytes that answer a look-up.
fn read(
    alloc: Global,
    state: &State,
    request: &Request,
    moment: Moment,
    call: &ReadCall,
) -> Result<Vec<u8>, Memory>
    ensures { IfOk result (λ text. (past : List Accept) → StandsFor state.now past
        → text.items ≡ reply_text request.now moment (reply (repository_of state.now) past moment (Call.Read call.now))) }
{
    let reply = repo_read::answer(alloc, state, call)?;
    reply_text(alloc, request, reply, moment)
}

/// The bytes that tell why a request asks for no call.
fn answer_error(
    alloc: Global,
    request: &Request,
    moment: Moment,
    error: &RestError,
) -> Result<Vec<u8>, Memory>
    ensures text { IfOk result (λ text. (r : ℕ) (history : List Accept) (expected : Result Asked RestFault) → IsError error.now expected
        → text.items ≡ text_of r history request.now moment expected) }
    ensures none { OnOk result ((expected : Result Asked RestFault) → IsError error.now expected → IsErr expected) }
{
    if let RestError::Memory = error {
        return Err(Memory);
    }
    let response = respond_error(alloc, request, error, moment)?;
    write_response(alloc, &response)
}

/// The same request, its body let go: no response needs it.
fn without_body(alloc: Global, request: Request) -> Request
    ensures { result ≡ record request { body = [] } }
{
    Request {
        body: Bytes::of(Vec::new(alloc)),
        ..request
    }
}

/// The bytes that answer a request, or what stands in place of its response.
fn judge<Q: Keeper>(
    alloc: Global,
    routes: &Routes,
    repo: &mut Repo<Q>,
    request: Request,
    moment: Moment,
) -> Result<Vec<u8>, Instead>
    ensures judges { Leads Q.figures Q.records Q.faults repo.old repo.new
        (Judges (λ v. v.items) Q.costs (IsSteadyRepo Q.IsSteady repo.old) request moment (routed request) result) }
    ensures keeper { GoesOn Q.records Q.faults Q.IsSteady repo.old repo.new }
{
    let routed = route(alloc, routes, &request);
    let request = without_body(alloc, request);
    match routed {
        Ok(Call::Write(command)) => write(alloc, repo, &request, moment, &command),
        Ok(Call::Read(call)) => Ok(read(alloc, repo.state(), &request, moment, &call)?),
        Err(error) => Ok(answer_error(alloc, &request, moment, &error)?),
    }
}

/// Judges a request and writes its response, or what stands in place of it.
fn answer<Q: Keeper, K: Sink>(
    alloc: Global,
    routes: &Routes,
    repo: &mut Repo<Q>,
    request: Request,
    moment: Moment,
    sink: &mut K,
) -> Result<(), Failed>
    ensures sent { Leads Q.figures Q.records Q.faults repo.old repo.new
        (Sent Q.costs (IsSteadyRepo Q.IsSteady repo.old) request moment (K.taken sink.old) (K.taken sink.new) result) }
    ensures keeper { GoesOn Q.records Q.faults Q.IsSteady repo.old repo.new }
    ensures passes { Passes K.faults K.IsSteady sink.old sink.new result }
{
    let close = request.close;
    let no_body = is_head(&request);
    match judge(alloc, routes, repo, request, moment) {
        Ok(text) => send(sink, &text),
        Err(instead) => {
            let text = fixed_response(instead.status(), moment, close, no_body);
            send(sink, text.as_slice())
        }
    }
}

/// Writes the text that ends the session.
fn close<K: Sink>(sink: &mut K, text: &[u8], due: Outcome) -> Outcome
    requires { write_result due ≡ Ok tt }
    ensures written { ((result ≡ due) × Grows (K.taken sink.old) (K.taken sink.new) text.now)
        ⊎ ((result ≡ Outcome.WriteFault) × CutsAnswer (K.taken sink.old) (K.taken sink.new) text.now) }
    ensures passes { Passes K.faults K.IsSteady sink.old sink.new (write_result result) }
{
    match send(sink, text) {
        Ok(()) => due,
        Err(Failed) => Outcome::WriteFault,
    }
}

/// Ends the session for want of memory.
pub(crate) fn close_busy<K: Sink>(sink: &mut K, moment: Moment) -> Outcome
    ensures closes { (rest : List ℕ) → Closes (K.taken sink.old) (K.taken sink.new) rest moment result }
    ensures passes { Passes K.faults K.IsSteady sink.old sink.new (write_result result) }
{
    let text = fixed_response(503, moment, true, false);
    close(sink, text.as_slice(), Outcome::Memory)
}

/// The bytes that tell an error of the stream.
fn refusal_text(alloc: Global, error: WireError, moment: Moment) -> Result<Vec<u8>, Memory>
    requires { error ≢ WireError.Memory }
    ensures { IfOk result (λ text. text.items ≡ wire_text error moment) }
{
    let response = respond_wire(alloc, error, moment)?;
    write_response(alloc, &response)
}

/// Ends the session by the response to an error.
fn refuse<K: Sink>(alloc: Global, error: WireError, moment: Moment, sink: &mut K) -> Outcome
    ensures closes { (rest : List ℕ) → (error ≢ WireError.Memory → IsFront rest (refused error))
        → Closes (K.taken sink.old) (K.taken sink.new) rest moment result }
    ensures passes { Passes K.faults K.IsSteady sink.old sink.new (write_result result) }
{
    if error == WireError::Memory {
        return close_busy(sink, moment);
    }
    match refusal_text(alloc, error, moment) {
        Ok(text) => close(sink, &text, Outcome::Refused(error)),
        Err(Memory) => close_busy(sink, moment),
    }
}

/// Answers the request at the front of the feed, where one stands there. The clock is read once for it.
pub(crate) fn take_turn<Q: Keeper, K: Sink, C: Clock>(
    alloc: Global,
    routes: &Routes,
    repo: &mut Repo<Q>,
    feed: &mut Feed,
    sink: &mut K,
    clock: &mut C,
) -> Turn
    ensures does { Leads Q.figures Q.records Q.faults repo.old repo.new
        (TurnDoes Q.costs (IsSteadyRepo Q.IsSteady repo.old) (K.taken sink.old) (K.taken sink.new) (C.readings clock.old) (C.readings clock.new) feed.old feed.new result) }
    ensures feeds { FeedDoes feed.old feed.new result }
    ensures keeper { GoesOn Q.records Q.faults Q.IsSteady repo.old repo.new }
    ensures passes { Passes K.faults K.IsSteady sink.old sink.new (turn_result result) }
{
    match feed.next(alloc) {
        Some(Ok(request)) => match answer(alloc, routes, repo, request, clock.now(), sink) {
            Ok(()) => Turn::Answered,
            Err(Failed) => Turn::Ends(Outcome::WriteFault),
        },
        Some(Err(error)) => Turn::Ends(refuse(alloc, error, clock.now(), sink)),
        None => Turn::Waits,
    }
}

/// Reads the next piece of the stream.
pub(crate) fn read_more<S: Source>(feed: &mut Feed, source: &mut S, piece: &mut [u8]) -> More
    requires { 0 < length piece.old }
    ensures does { ReadDoes (S.left source.old) (S.left source.new) feed.old feed.new result }
    ensures bound { IsGotWithin (length piece.old) result }
    ensures passes { Passes S.faults S.IsSteady source.old source.new (more_result result) }
{
    match source.read(piece) {
        Ok(0) => More::End,
        Ok(n) => match feed.push(&piece[..n]) {
            Ok(()) => More::Got(n as u64),
            Err(Memory) => More::NoMemory,
        },
        Err(Failed) => More::Fault,
    }
}
