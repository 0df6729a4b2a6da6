//! The path and the query of a target.

ghost use Rattle.std.specs.Prelude.{◌≡◌, length};
ghost use Rattle.std.specs.List.{position_or_len};
ghost use Rattle.api_rest.specs.Targets.{ends_authority, behind_authority, without_authority, path_of, query_of};

/// How many bytes stand before the first that ends an authority.
fn authority_len(text: &[u8]) -> usize
    ensures { result ≡ position_or_len ends_authority text.now }
{
    for (at, byte) in text.iter().enumerate() {
        if *byte == b'/' || *byte == b'#' {
            return at;
        }
    }
    text.len()
}

/// What stands behind an authority.
fn behind_authority(text: &str) -> &str
    ensures { result.now ≡ behind_authority text.now }
{
    &text[authority_len(text.as_bytes())..]
}

/// What stands behind the scheme and the authority, where the text begins with `http://`.
fn without_authority(front: &str) -> &str
    ensures { result.now ≡ without_authority front.now }
{
    match front.strip_prefix("http://") {
        Some(rest) => behind_authority(rest),
        None => front,
    }
}

/// The path of a target, and its query. Without a `?` the query is empty.
pub(crate) fn path_and_query(target: &str) -> (&str, &str)
    ensures path { result.0.now ≡ path_of target.now }
    ensures query { result.1.now ≡ query_of target.now }
{
    match target.split_once('?') {
        Some((front, query)) => (without_authority(front), query),
        None => (without_authority(target), ""),
    }
}
