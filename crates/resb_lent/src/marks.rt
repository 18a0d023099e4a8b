//! Marks of texts, which their last bytes tell: a text that ends with another one has the mark of
//! that one too. Which texts are marked is said in `answers_beside`.
ghost use Rattle.std.specs.Prelude.{◌≡◌, ◌<◌, reverse};
ghost use Rattle.resb_lent.specs.Inner.Marks.{mark_with, last_mark, is_hit};

/// How many marks there are.
pub(crate) const MARKS: usize = 0x1000;

/// How many of the last bytes of a text tell its mark.
const MARKED: u8 = 4;

/// The mark of bytes behind a byte, given theirs.
fn mark_before(mark: usize, byte: u8) -> usize
    requires { mark < 4096 }
    ensures is { result ≡ mark_with mark byte }
    ensures small { result < 4096 }
{
    (mark * 31 + usize::from(byte)) % MARKS
}

/// The mark of a text, which its last bytes tell.
pub(crate) fn mark_of(text: &str) -> usize
    ensures is { result ≡ last_mark 4 0 (reverse text.now) }
    ensures small { result < 4096 }
{
    let mut bytes = text.as_bytes();
    let mut mark = 0;
    let mut left = MARKED;
    'bytes: while left > 0 {
        let Some((byte, rest)) = bytes.split_last() else {
            return mark;
        };
        mark = mark_before(mark, *byte);
        bytes = rest;
        left -= 1;
    }
    mark
}

/// Whether a text may end with one of those whose marks were noted.
pub(crate) fn may_end_marked(marks: &[bool; MARKS], text: &str) -> bool
    ensures { result ≡ is_hit marks.now 4 0 (reverse text.now) }
{
    let mut bytes = text.as_bytes();
    let mut mark = 0;
    let mut left = MARKED;
    'bytes: while left > 0 {
        let Some((byte, rest)) = bytes.split_last() else {
            return false;
        };
        mark = mark_before(mark, *byte);
        if marks[mark] {
            return true;
        }
        bytes = rest;
        left -= 1;
    }
    false
}
