//! The session: turn by turn a request is answered, or more is read.

ghost use Rattle.std.specs.Prelude.{◌≡◌, ◌⊎◌};
ghost use Rattle.std.specs.Io.KnownBytes.{IsAtEnd};
ghost use Rattle.sysapi_base.specs.Outside.{Passes};
ghost use Rattle.sysapi_serve.specs.Kept.{Leads, IsSteadyRepo, GoesOn};
ghost use Rattle.sysapi_serve.specs.Alone.{Serves};
ghost use Rattle.sysapi_serve.specs.Parts.{read_result, write_result};

use crate::outcome::{Outcome, Served};
use crate::turn::{More, Turn, close_busy, read_more, take_turn};
use api_rest::Routes;
use http_wire::Feed;
use journal_disk::Keeper;
use shared_repo::Repo;
use std::alloc::Global;
use sysapi_base::{Clock, Memory, Sink, Source};

/// So many bytes are read at most at a time.
pub const PIECE: usize = 65_536;

/// After so many bytes no more are read.
pub const BYTES_MOST: u64 = 1_099_511_627_776;

/// Answers the requests of the source, one after another, until it ends, or until one can't be read or answered. The table of the
/// routes is made first, once for the session; without memory for it the session ends before it reads.
pub fn serve_alone<S: Source, K: Sink, Q: Keeper, C: Clock>(
    alloc: Global,
    repo: &mut Repo<Q>,
    source: &mut S,
    sink: &mut K,
    clock: &mut C,
) -> Served
    ensures session { Leads Q.figures Q.records Q.faults repo.old repo.new
        (Serves Q.costs (IsSteadyRepo Q.IsSteady repo.old) (S.left source.old) (S.left source.new) (K.taken sink.old) (K.taken sink.new)
        (C.readings clock.old) (C.readings clock.new) result) }
    ensures keeper { GoesOn Q.records Q.faults Q.IsSteady repo.old repo.new }
    ensures ended { result.outcome ≡ Outcome.Ended ⊎ (result.outcome ≡ Outcome.CutShort) → IsAtEnd (S.left source.new) }
    ensures source { Passes S.faults S.IsSteady source.old source.new (read_result result.outcome) }
    ensures sink { Passes K.faults K.IsSteady sink.old sink.new (write_result result.outcome) }
{
    match Routes::new(alloc) {
        Ok(routes) => serve_routed(alloc, &routes, repo, source, sink, clock),
        Err(Memory) => {
            let outcome = close_busy(sink, clock.now());
            Served {
                outcome,
                answered: 0,
            }
        }
    }
}

/// The session over a table of the routes.
fn serve_routed<S: Source, K: Sink, Q: Keeper, C: Clock>(
    alloc: Global,
    routes: &Routes,
    repo: &mut Repo<Q>,
    source: &mut S,
    sink: &mut K,
    clock: &mut C,
) -> Served
    ensures session { Leads Q.figures Q.records Q.faults repo.old repo.new
        (Serves Q.costs (IsSteadyRepo Q.IsSteady repo.old) (S.left source.old) (S.left source.new) (K.taken sink.old) (K.taken sink.new)
        (C.readings clock.old) (C.readings clock.new) result) }
    ensures keeper { GoesOn Q.records Q.faults Q.IsSteady repo.old repo.new }
    ensures ended { result.outcome ≡ Outcome.Ended ⊎ (result.outcome ≡ Outcome.CutShort) → IsAtEnd (S.left source.new) }
    ensures source { Passes S.faults S.IsSteady source.old source.new (read_result result.outcome) }
    ensures sink { Passes K.faults K.IsSteady sink.old sink.new (write_result result.outcome) }
{
    let mut feed = Feed::new(alloc);
    let mut piece = [0; PIECE];
    let mut total = 0;
    let mut answered = 0;
    'turns: loop {
        match take_turn(alloc, routes, repo, &mut feed, sink, clock) {
            Turn::Answered => answered += 1,
            Turn::Ends(outcome) => return Served { outcome, answered },
            Turn::Waits => {
                if total >= BYTES_MOST {
                    return Served {
                        outcome: Outcome::Spent,
                        answered,
                    };
                }
                match read_more(&mut feed, source, &mut piece) {
                    More::Got(n) => total += n,
                    More::End if feed.is_empty() => {
                        return Served {
                            outcome: Outcome::Ended,
                            answered,
                        };
                    }
                    More::End => {
                        return Served {
                            outcome: Outcome::CutShort,
                            answered,
                        };
                    }
                    More::Fault => {
                        return Served {
                            outcome: Outcome::ReadFault,
                            answered,
                        };
                    }
                    More::NoMemory => {
                        let outcome = close_busy(sink, clock.now());
                        return Served { outcome, answered };
                    }
                }
            }
        }
    }
}
