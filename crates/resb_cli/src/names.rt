//! The name of the bundle that a text is, as it stands there.
//! That a text is a bundle is known before.
use crate::repeated::key_at;
use resb_grammar::blanks_end;

/// The name of the bundle of a text that was read, without its quotes, and where it stands.
pub(crate) fn name_in(source: &[u8], is_icu: bool) -> (usize, &str) {
    let mut at = mark_end(source);
    for _ in 0..source.len() {
        at = blanks_end(source, at.min(source.len()));
        match comment_end(source, at, is_icu) {
            Some(end) => at = end,
            None => break,
        }
    }
    (at, key_at(source, at, is_icu))
}

/// Behind the byte order mark with which a text begins, if it has one.
fn mark_end(source: &[u8]) -> usize {
    if source.starts_with(b"\xEF\xBB\xBF") {
        3
    } else {
        0
    }
}

/// Behind the comment that begins at a place, if one does.
pub(crate) fn comment_end(source: &[u8], place: usize, is_icu: bool) -> Option<usize> {
    let (_, rest) = source.split_at_checked(place)?;
    let length = match rest {
        [b'/', b'/', ..] => line_length(rest, is_icu),
        [b'/', b'*', ..] => block_length(rest, is_icu),
        _ => return None,
    };
    Some(place.saturating_add(length))
}

/// How many bytes a comment has that ends with its line.
fn line_length(bytes: &[u8], is_icu: bool) -> usize {
    for at in 0..bytes.len() {
        if bytes[at] == b'\n' || (is_icu && bytes[at] == b'\r') {
            return at;
        }
    }
    bytes.len()
}

/// How many bytes a comment has that ends with `*/`. In ICU's form a byte stands between that and
/// its `/*`.
fn block_length(bytes: &[u8], is_icu: bool) -> usize {
    let first = if is_icu { 3usize } else { 2usize };
    let mut is_behind_star = false;
    for at in 0..bytes.len() {
        if is_behind_star && bytes[at] == b'/' {
            return at + 1;
        }
        is_behind_star = first <= at && bytes[at] == b'*';
    }
    bytes.len()
}
