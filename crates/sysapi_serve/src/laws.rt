//! Laws of sessions. Each is the contract of a function that does nothing.

ghost use Rattle.sysapi_serve.specs.Laws.{AllAreJudged, IsComplete, PointsNeverGoBack};

/// A session judges each request of the bytes that it read, in their order, up to what ended it.
pub fn all_are_judged()
    ensures { AllAreJudged }
{}

/// A source of whole requests is answered to its end, where nothing fails and memory is found.
pub fn is_complete()
    ensures { IsComplete }
{}

/// A request is never judged at an earlier point of the history than one before it.
pub fn points_never_go_back()
    ensures { PointsNeverGoBack }
{}
