//! Defines how texts describe each kind of request in words, and returns the numbers in a request.
ghost use Rattle.std.specs.Prelude.{◌≡◌, ◌+◌, ◌≤◌, map, take};
ghost use Rattle.semantics.specs.Call.{words_of};
ghost use Rattle.board.specs.Wording.{numbers_asked, row_asked, row_of, rows, span_asked};

use semantics::Request;

/// How chronicles, answers and sentences describe the requests of one kind.
#[derive(Clone, Copy)]
pub struct Wording {
    /// The word that names the kind of request in a chronicle, such as `swap`.
    pub word: &'static str,
    /// The line of an access in a chronicle, with `N` for each number, such as `access N get N = N`. If `copies` is
    /// true, the line ends before the number of words to copy.
    pub shape: &'static str,
    /// The words of the access line, each with its name in an answer. A dash means that the word is left out. `N` is
    /// a number, `*` is all words of the answer, and any other text is the word itself.
    pub parts: &'static [(&'static str, &'static str)],
    /// The pieces of a sentence that describes the request, such as `writes 5 into word 2`. After each piece comes
    /// the number of the request with this index.
    pub sentence: &'static [(&'static str, usize)],
    /// Whether the request copies words, so that its answer has as many words as its last number says. Otherwise the
    /// answer has one word.
    pub copies: bool,
}

/// The descriptions of all kinds of requests, in the order of the kinds.
const WORDINGS: &[Wording] = &[
    Wording {
        word: "get",
        shape: "access N get N = N",
        parts: &[
            ("access", "-"),
            ("N", "general"),
            ("get", "request"),
            ("N", "slot"),
            ("=", "-"),
            ("*", "answer"),
        ],
        sentence: &[("reads word ", 0)],
        copies: false,
    },
    Wording {
        word: "swap",
        shape: "access N swap N N = N",
        parts: &[
            ("access", "-"),
            ("N", "general"),
            ("swap", "request"),
            ("N", "slot"),
            ("N", "value"),
            ("=", "-"),
            ("*", "answer"),
        ],
        sentence: &[("writes ", 1), (" into word ", 0)],
        copies: false,
    },
    Wording {
        word: "add",
        shape: "access N add N N = N",
        parts: &[
            ("access", "-"),
            ("N", "general"),
            ("add", "request"),
            ("N", "slot"),
            ("N", "value"),
            ("=", "-"),
            ("*", "answer"),
        ],
        sentence: &[("adds ", 1), (" to word ", 0)],
        copies: false,
    },
    Wording {
        word: "cas",
        shape: "access N cas N N N = N",
        parts: &[
            ("access", "-"),
            ("N", "general"),
            ("cas", "request"),
            ("N", "slot"),
            ("N", "expected"),
            ("N", "new"),
            ("=", "-"),
            ("*", "answer"),
        ],
        sentence: &[("writes ", 2), (" into word ", 0), (" if it is ", 1)],
        copies: false,
    },
    Wording {
        word: "copy",
        shape: "access N copy N",
        parts: &[
            ("access", "-"),
            ("N", "general"),
            ("copy", "request"),
            ("N", "slot"),
            ("N", "count"),
            ("=", "-"),
            ("*", "answer"),
        ],
        sentence: &[("copies ", 1), (" words from word ", 0)],
        copies: true,
    },
];

/// Returns the descriptions of all kinds of requests, one for each kind.
pub fn wordings() -> &'static [Wording]
    ensures { map row_of result.now ≡ rows }
{
    WORDINGS
}

/// Returns the words that describe requests of this request's kind.
pub fn worded(request: &Request) -> &'static Wording
    ensures { row_of result.now ≡ row_asked request.now }
{
    match request {
        Request::Get { .. } => &WORDINGS[0],
        Request::Swap { .. } => &WORDINGS[1],
        Request::Add { .. } => &WORDINGS[2],
        Request::Cas { .. } => &WORDINGS[3],
        Request::Copy { .. } => &WORDINGS[4],
    }
}

/// Returns the numbers in the request, and how many there are, at most 3. Further elements of the array are 0.
pub fn numbers(request: &Request) -> ([u64; 3], usize)
    ensures are { take result.1 result.0 ≡ numbers_asked request.now }
    ensures few { result.1 ≤ 3 }
{
    match *request {
        Request::Get { slot } => ([slot.number() as u64, 0, 0], 1),
        Request::Swap { slot, value } => ([slot.number() as u64, value, 0], 2),
        Request::Add { slot, value } => ([slot.number() as u64, value, 0], 2),
        Request::Cas {
            slot,
            expected,
            new,
        } => ([slot.number() as u64, expected, new], 3),
        Request::Copy { span } => ([span.slot() as u64, span.count() as u64, 0], 2),
    }
}

/// Returns which words of the board a request names: the index of the first, and their number. The answer has the
/// same number of words.
pub fn span(request: &Request) -> (usize, usize)
    ensures are { result ≡ span_asked request.now }
    ensures there { result.0 + result.1 ≤ 64 }
    ensures answer { result.1 ≡ words_of request.now }
{
    match request {
        Request::Get { slot }
        | Request::Swap { slot, .. }
        | Request::Add { slot, .. }
        | Request::Cas { slot, .. } => (slot.number(), 1),
        Request::Copy { span } => (span.slot(), span.count()),
    }
}
