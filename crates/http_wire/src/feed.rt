//! A stream of bytes in pieces, and the requests in it.

ghost use Rattle.std.specs.Prelude.{◌≡◌, ◌≢◌, ◌≤◌, ℕ, List, [], ◌++◌, ◌↔◌, IsTrue, length, drop, slice_range, OnOk, OnErr, IfSome, IfOk, IfErr, IsNone, vec_len};
ghost use Rattle.http_wire.specs.Fronts.{Front, not_yet, refused, request_at, IsFront, Takes};
ghost use Rattle.http_wire.specs.Streams.{Step, push_call, next_call};

use crate::error::WireError;
use crate::front::{Parts, judge};
use crate::request::Request;
use std::alloc::{AllocError, Global};
use std::marker::Model;
use std::mem;
use sysapi_base::{Bytes, Memory};

/// The bytes of a stream that were pushed and not yet taken, seen as their list.
#[derive(Debug, Drop)]
pub struct Feed {
    bytes: Vec<u8>,
    taken: usize,
}

impl Model for Feed {
    ghost Value = { List ℕ };

    ghost view = { λ f. drop f.taken f.bytes.items };

    ghost invariant = { λ f. f.taken ≤ vec_len f.bytes };
}

/// Leaves nothing but the bytes from the start to the end, in the memory that they have.
fn keep(bytes: &mut Vec<u8>, start: usize, end: usize)
    requires order { start ≤ end }
    requires within { end ≤ vec_len bytes.old }
    ensures { bytes.new.items ≡ slice_range bytes.old.items start end }
{
    bytes.truncate(end);
    bytes.drain(..start);
}

impl Feed {
    /// A feed to which nothing was pushed.
    pub fn new(alloc: Global) -> Feed
        ensures { result ≡ [] }
    {
        Feed {
            bytes: Vec::new(alloc),
            taken: 0,
        }
    }

    /// Whether all that was pushed is taken.
    pub fn is_empty(&self) -> bool
        ensures { IsTrue result ↔ (self.now ≡ []) }
    {
        self.untaken().is_empty()
    }

    fn untaken(&self) -> &[u8]
        ensures { result.now ≡ self.now }
    {
        &self.bytes[self.taken..]
    }

    /// Adds the next piece of the stream. Without memory the feed stays as it was.
    pub fn push(&mut self, bytes: &[u8]) -> Result<(), Memory>
        ensures ok { OnOk result (self.new ≡ self.old ++ bytes.now) }
        ensures err { OnErr result (self.new ≡ self.old) }
        ensures step { Step self.old (push_call bytes.now result) self.new }
    {
        if self.taken > 0 {
            self.bytes.drain(..self.taken);
            self.taken = 0;
        }
        match self.bytes.extend_from_slice(bytes) {
            Ok(()) => Ok(()),
            Err(_) => Err(Memory),
        }
    }

    /// Takes the request at the front. None where the bytes so far are neither a request nor an error. After an error
    /// the feed stays as it was, so that BadHead and UnknownCoding are answered ever after, whatever is pushed.
    pub fn next(&mut self, alloc: Global) -> Option<Result<Request, WireError>>
        ensures not_yet { IsNone result → IsFront self.old not_yet × (self.new ≡ self.old) }
        ensures request { IfSome result (λ r. IfOk r (λ q. Takes self.old q self.new)) }
        ensures refused { IfSome result (λ r. IfErr r (λ e. (self.new ≡ self.old) × (e ≢ WireError.Memory → IsFront self.old (refused e)))) }
        ensures step { Step self.old (next_call result) self.new }
    {
        match judge(alloc, self.untaken()) {
            Ok(None) => None,
            Ok(Some(parts)) => Some(self.take(alloc, parts)),
            Err(e) => Some(Err(e)),
        }
    }

    /// Takes the request of these parts. Without memory the feed stays as it was.
    fn take(&mut self, alloc: Global, parts: Parts) -> Result<Request, WireError>
        requires order { parts.head_len ≤ parts.len }
        requires within { parts.len ≤ length self.old }
        ensures request { IfOk result (λ request. request ≡ request_at parts self.old) }
        ensures rest { OnOk result (self.new ≡ drop parts.len self.old) }
        ensures kept { IfErr result (λ e. (e ≡ WireError.Memory) × (self.new ≡ self.old)) }
    {
        let body = self.take_body(alloc, parts.head_len, parts.len)?;
        Ok(Request {
            method: parts.method,
            target: parts.target,
            old: false,
            host: None,
            close: false,
            body,
        })
    }

    /// Takes so many bytes, and gives those behind the head. Either the body or what follows it is copied, whichever is
    /// shorter, so that neither a long body nor many requests in one piece cost more than their bytes.
    fn take_body(&mut self, alloc: Global, head_len: usize, len: usize) -> Result<Bytes, AllocError>
        requires order { head_len ≤ len }
        requires within { len ≤ length self.old }
        ensures body { IfOk result (λ body. body ≡ slice_range self.old head_len len) }
        ensures rest { OnOk result (self.new ≡ drop len self.old) }
        ensures kept { OnErr result (self.new ≡ self.old) }
    {
        let body_len = len - head_len;
        let tail_len = self.untaken().len() - len;
        if 0 < body_len && tail_len <= body_len {
            self.handed_body(alloc, head_len, len)
        } else {
            self.copied_body(alloc, head_len, len)
        }
    }

    /// The body as a copy. An empty one takes no memory.
    fn copied_body(
        &mut self,
        alloc: Global,
        head_len: usize,
        len: usize,
    ) -> Result<Bytes, AllocError>
        requires order { head_len ≤ len }
        requires within { len ≤ length self.old }
        ensures body { IfOk result (λ body. body ≡ slice_range self.old head_len len) }
        ensures rest { OnOk result (self.new ≡ drop len self.old) }
        ensures kept { OnErr result (self.new ≡ self.old) }
    {
        let body = Vec::from_slice(alloc, &self.untaken()[head_len..len])?;
        self.taken += len;
        Ok(Bytes::of(body))
    }

    /// The feed's own buffer as the body, so that a long body stands in memory once. Only what follows it is copied, into
    /// the buffer that the feed has from then on.
    fn handed_body(
        &mut self,
        alloc: Global,
        head_len: usize,
        len: usize,
    ) -> Result<Bytes, AllocError>
        requires order { head_len ≤ len }
        requires within { len ≤ length self.old }
        ensures body { IfOk result (λ body. body ≡ slice_range self.old head_len len) }
        ensures rest { OnOk result (self.new ≡ drop len self.old) }
        ensures kept { OnErr result (self.new ≡ self.old) }
    {
        let tail = Vec::from_slice(alloc, &self.untaken()[len..])?;
        let start = self.taken + head_len;
        let end = self.taken + len;
        self.taken = 0;
        let mut body = mem::replace(&mut self.bytes, tail);
        keep(&mut body, start, end);
        Ok(Bytes::of(body))
    }
}
