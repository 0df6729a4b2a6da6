//! Laws of fronts and feeds. Each is the contract of a function that does nothing.

ghost use Rattle.http_wire.specs.Streams.{OneFront, NothingYet, FrontStays, AnyCut, OneReading, SameError};

/// Bytes have one front.
pub fn one_front()
    ensures { OneFront }
{}

/// Where no bytes are, a request can still come.
pub fn nothing_yet()
    ensures { NothingYet }
{}

/// A request or an error at the front stays there, whatever bytes follow.
pub fn front_stays()
    ensures { FrontStays }
{}

/// A feed gives the fronts of the joined pieces, one after another, however they are cut.
pub fn any_cut()
    ensures { AnyCut }
{}

/// A stream has one list of requests, and one front behind them.
pub fn one_reading()
    ensures { OneReading }
{}

/// A feed that answered an error of the stream answers that error ever after.
pub fn same_error()
    ensures { SameError }
{}
