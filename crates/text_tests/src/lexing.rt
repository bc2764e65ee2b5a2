//! Texts whose logical lines were worked out by hand from the rules.

use lex_core::{Line, Lines, Span};

// A word with its first byte and the one behind its last.
type Wanted<'a> = (usize, usize, &'a str);

// Whether the line has this word at this place.
fn is_at(line: &Line<'_>, place: usize, (span, word): (Span, &[u8])) -> bool {
    line.span(place) == Some(span) && line.word(place) == Some(word)
}

fn is_word((span, text): (Span, &[u8]), (start, end, word): Wanted<'_>) -> bool {
    span.start == start && span.end == end && text == word.as_bytes()
}

fn has_words(line: &Line<'_>, wanted: &[Wanted<'_>]) -> bool {
    let mut left = line.words();
    for (place, &word) in wanted.iter().enumerate() {
        match left.next_word() {
            Some(found) => {
                if !is_word(found, word) || !is_at(line, place, found) {
                    return false;
                }
            }
            None => return false,
        }
    }
    left.next_word().is_none()
        && line.word(wanted.len()).is_none()
        && line.span(wanted.len()).is_none()
}

// Whether these are all lines of the text, each with its number and its words.
fn has_lines(text: &str, wanted: &[(u64, &[Wanted<'_>])]) -> bool {
    let mut lines = Lines::new(text.as_bytes());
    for &(number, words) in wanted {
        match lines.next_line() {
            Some(line) => {
                if line.number() != number || !has_words(&line, words) {
                    return false;
                }
            }
            None => return false,
        }
    }
    lines.next_line().is_none() && lines.next_line().is_none()
}

// Texts, and the numbers of their lines with the words.
const TEXTS: &[(&str, &[(u64, &[Wanted<'_>])])] = &[
    // a joined line, an empty one and a list
    (
        "a \\\nb # c\n\r\n( d )",
        &[
            (1, &[(0, 1, "a"), (4, 5, "b")]),
            (4, &[(12, 13, "("), (14, 15, "d"), (16, 17, ")")]),
        ],
    ),
    // a comment ends with its line, whatever it ends with
    ("a#b \\\nc", &[(1, &[(0, 1, "a")]), (2, &[(6, 7, "c")])]),
    // carriage returns are blanks, at the end of a line and inside
    (
        "a \\\r\nb\r\r\n\r\nc\rd\r\n",
        &[
            (1, &[(0, 1, "a"), (5, 6, "b")]),
            (4, &[(11, 12, "c"), (13, 14, "d")]),
        ],
    ),
    // a backslash joins lines before blanks and a comment too, but not before a word
    (
        "a\\ \t# b \\\nc\\ d\ne",
        &[
            (1, &[(0, 1, "a"), (10, 12, "c\\"), (13, 14, "d")]),
            (3, &[(15, 16, "e")]),
        ],
    ),
    // one backslash is dropped at most
    ("a\\\\\nb", &[(1, &[(0, 2, "a\\"), (4, 5, "b")])]),
    // a comment line ends a joined line, and a line may begin with joined lines that have no word
    (
        "a\\\n# b\n\\\n\\\nc",
        &[(1, &[(0, 1, "a")]), (3, &[(11, 12, "c")])],
    ),
    // a joined line at the end of the bytes just ends
    ("a,b\\", &[(1, &[(0, 1, "a"), (1, 2, ","), (2, 3, "b")])]),
    ("a\\\n", &[(1, &[(0, 1, "a")])]),
    // no word
    ("", &[]),
    (" \t\r\n\\\n\n# a", &[]),
];

#[test]
fn texts_have_their_lines(rt: HostRuntime) {
    for &(text, wanted) in TEXTS {
        assert!(rt; has_lines(text, wanted), "{text:?}");
    }
}
