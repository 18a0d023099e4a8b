//! The brace that waits for its other half where a text ends.
//! Strings in quotes and comments are passed over; whether the text is a bundle isn't asked.
ghost use Rattle.std.specs.Prelude.{◌≡◌, ◌<◌, ◌^◌, Bool, length};
ghost use Rattle.resb_diagnostics.specs.Braces as braces;

/// What each byte of a text of one form stands in.
pub(crate) trait Modes: Sized + Copy {
    ghost use Rattle.std.specs.Prelude.{◌≡◌};
    ghost use Rattle.resb_diagnostics.specs.Braces as braces;

    /// This form in the words of the definitions.
    ghost form: { braces.Form Self };

    /// What the first byte stands in.
    fn start() -> Self
        ensures { result ≡ form.start };

    /// What the byte behind this one stands in.
    fn behind(self, byte: u8) -> Self
        ensures { result ≡ form.behind self byte };

    /// Whether a brace in it is a token.
    fn has_tokens(self) -> bool
        ensures { result ≡ form.has_tokens self };
}

/// What a byte stands in.
#[derive(Clone, Copy, Debug, PartialEq, Eq)]
pub(crate) enum Mode {
    /// Among tokens and blanks.
    Tokens,
    /// Outside of strings and comments, behind a `/`.
    Slash,
    /// In a string in quotes.
    Quotes,
    /// In a comment up to the line's end.
    LineComment,
    /// In a comment up to `*/`.
    BlockComment,
    /// In a long comment, behind a `*`.
    Star,
}

impl Modes for Mode {
    ghost use Rattle.resb_diagnostics.specs.Braces.{plain_form};

    ghost form = { plain_form };

    fn start() -> Mode {
        Mode::Tokens
    }

    fn behind(self, byte: u8) -> Mode {
        match self {
            Mode::Tokens | Mode::Slash if byte == b'"' => Mode::Quotes,
            Mode::Slash if byte == b'/' => Mode::LineComment,
            Mode::Slash if byte == b'*' => Mode::BlockComment,
            Mode::Tokens | Mode::Slash if byte == b'/' => Mode::Slash,
            Mode::Tokens | Mode::Slash => Mode::Tokens,
            Mode::Quotes if byte == b'"' => Mode::Tokens,
            Mode::Quotes => Mode::Quotes,
            Mode::LineComment if byte == b'\n' => Mode::Tokens,
            Mode::LineComment => Mode::LineComment,
            Mode::Star if byte == b'/' => Mode::Tokens,
            Mode::BlockComment | Mode::Star if byte == b'*' => Mode::Star,
            Mode::BlockComment | Mode::Star => Mode::BlockComment,
        }
    }

    fn has_tokens(self) -> bool {
        matches!(self, Mode::Tokens | Mode::Slash)
    }
}

/// What a byte of a text of ICU's form stands in.
#[derive(Clone, Copy, Debug, PartialEq, Eq)]
pub(crate) enum IcuMode {
    /// What a byte of a text of the other form may stand in too.
    As(Mode),
    /// In a string in quotes, behind a backslash.
    Escape,
    /// In a comment, right behind its `/*`.
    BlockStart,
}

impl Modes for IcuMode {
    ghost use Rattle.resb_diagnostics.specs.Braces.{icu_form};

    ghost form = { icu_form };

    fn start() -> IcuMode {
        IcuMode::As(Mode::Tokens)
    }

    fn behind(self, byte: u8) -> IcuMode {
        match self {
            IcuMode::Escape => IcuMode::As(Mode::Quotes),
            IcuMode::BlockStart => IcuMode::As(Mode::BlockComment),
            IcuMode::As(Mode::Quotes) if byte == b'\\' => IcuMode::Escape,
            IcuMode::As(Mode::Slash) if byte == b'*' => IcuMode::BlockStart,
            IcuMode::As(Mode::LineComment) if byte == b'\r' => IcuMode::As(Mode::Tokens),
            IcuMode::As(mode) => IcuMode::As(mode.behind(byte)),
        }
    }

    fn has_tokens(self) -> bool {
        match self {
            IcuMode::As(mode) => mode.has_tokens(),
            _ => false,
        }
    }
}

/// How many braces are open behind a byte among tokens or not.
pub(crate) fn depth_behind(has_tokens: bool, byte: u8, depth: usize) -> usize
    requires { depth < 2 ^ 63 }
    ensures { result ≡ braces.depth_behind has_tokens byte depth }
{
    if has_tokens && byte == b'{' {
        depth + 1
    } else if has_tokens && byte == b'}' && 0 < depth {
        depth - 1
    } else {
        depth
    }
}

/// How many braces are open where the text ends.
fn depth_at_end<M: Modes>(text: &[u8]) -> usize
    ensures { result ≡ braces.depth_at M.form text.now (length text.now) }
{
    let mut mode = M::start();
    let mut depth = 0;
    'bytes: for at in 0..text.len() {
        let byte = text[at];
        depth = depth_behind(mode.has_tokens(), byte, depth);
        mode = mode.behind(byte);
    }
    depth
}

/// The place of the innermost `{` that is open where the text ends, in bytes.
fn innermost<M: Modes>(text: &[u8]) -> Option<usize>
    ensures { result ≡ braces.innermost_in M.form text.now }
{
    let wanted = depth_at_end::<M>(text);
    let mut mode = M::start();
    let mut depth = 0;
    let mut found = None;
    'bytes: for at in 0..text.len() {
        let byte = text[at];
        if mode.has_tokens() && byte == b'{' && depth + 1 == wanted {
            found = Some(at);
        }
        depth = depth_behind(mode.has_tokens(), byte, depth);
        mode = mode.behind(byte);
    }
    found
}

/// The place of the innermost `{` that is open where the text ends, in bytes.
pub fn innermost_open(text: &[u8]) -> Option<usize>
    ensures { result ≡ braces.innermost_open text.now }
{
    innermost::<Mode>(text)
}

/// The innermost `{` without a partner in a text of ICU's form, which has escapes in quotes, and
/// whose comments end otherwise.
pub fn innermost_icu_open(text: &[u8]) -> Option<usize>
    ensures { result ≡ braces.innermost_icu_open text.now }
{
    innermost::<IcuMode>(text)
}
