//! The first word of a script line behind which something stands.

ghost use Rattle.std.specs.Prelude.{◌≡◌};
ghost use Rattle.trace_script.specs.Script.{keyword_of};

/// What a line says that begins so.
#[derive(Clone, Copy, Debug, PartialEq, Eq)]
pub(crate) enum Keyword {
    Append,
    Read,
    Tail,
    Trim,
    Peek,
    Deliver,
    Flow,
    Tick,
    Grace,
    Crash,
    Suspect,
    Show,
}

impl Keyword {
    /// The keyword that is this word.
    pub(crate) fn of(word: &[u8]) -> Option<Keyword>
        ensures { result ≡ keyword_of word.now }
    {
        if word == b"append".as_slice() {
            return Some(Keyword::Append);
        }
        if word == b"read".as_slice() {
            return Some(Keyword::Read);
        }
        if word == b"tail".as_slice() {
            return Some(Keyword::Tail);
        }
        if word == b"trim".as_slice() {
            return Some(Keyword::Trim);
        }
        if word == b"peek".as_slice() {
            return Some(Keyword::Peek);
        }
        if word == b"deliver".as_slice() {
            return Some(Keyword::Deliver);
        }
        if word == b"flow".as_slice() {
            return Some(Keyword::Flow);
        }
        if word == b"tick".as_slice() {
            return Some(Keyword::Tick);
        }
        if word == b"grace".as_slice() {
            return Some(Keyword::Grace);
        }
        if word == b"crash".as_slice() {
            return Some(Keyword::Crash);
        }
        if word == b"suspect".as_slice() {
            return Some(Keyword::Suspect);
        }
        if word == b"show".as_slice() {
            return Some(Keyword::Show);
        }
        None
    }
}
