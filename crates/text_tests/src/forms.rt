//! Lines and rows whose forms and entries were worked out by hand from the format.

use blifmv_lines::{
    Entries, Form, ListedNames, Spelled, fill_words, form_of, has_names, is_name, is_value_name,
    number_of, spells,
};
use lex_core::Lines;
use std::alloc::{AllocError, Global};
use std::test::Fail;

// The words of the first line of a text, in a buffer that held another word.
fn words_of<'a>(alloc: Global, text: &'a str) -> Result<Vec<&'a [u8]>, AllocError> {
    let mut words = vec![in alloc; b"old".as_slice()]?;
    fill_first(&mut words, text)?;
    Ok(words)
}

fn fill_first<'a>(words: &mut Vec<&'a [u8]>, text: &'a str) -> Result<(), AllocError> {
    match Lines::new(text.as_bytes()).next_line() {
        Some(line) => fill_words(words, &line),
        None => Ok(()),
    }
}

fn put_word(out: &mut Vec<u8>, word: &[u8]) -> Result<(), AllocError> {
    out.extend_from_slice(b" ")?;
    out.extend_from_slice(word)
}

// The kind, and then the words, each behind a blank.
fn put(out: &mut Vec<u8>, kind: &str, words: &[&[u8]]) -> Result<(), AllocError> {
    out.extend_from_slice(kind.as_bytes())?;
    for word in words {
        put_word(out, word)?;
    }
    Ok(())
}

fn put_two(out: &mut Vec<u8>, kind: &str, ins: &[&[u8]], outs: &[&[u8]]) -> Result<(), AllocError> {
    put(out, kind, ins)?;
    put(out, " :", outs)
}

fn put_domains(
    out: &mut Vec<u8>,
    names: &[&[u8]],
    count: &[u8],
    values: &[&[u8]],
) -> Result<(), AllocError> {
    put_two(out, "domains", names, &[count])?;
    put(out, " :", values)
}

fn put_form(out: &mut Vec<u8>, form: Option<Form<'_, '_>>) -> Result<(), AllocError> {
    match form {
        Some(Form::Model(names)) => put(out, "model", names),
        Some(Form::Inputs(names)) => put(out, "inputs", names),
        Some(Form::Outputs(names)) => put(out, "outputs", names),
        Some(
            Form::Domains {
                names,
                count,
                values,
            },
        ) => put_domains(out, names, count, values),
        Some(Form::Table { ins, outs }) => put_two(out, "table", ins, outs),
        Some(Form::Reset { ins, outs }) => put_two(out, "reset", ins, outs),
        Some(Form::Latch { input, output }) => put(out, "latch", &[input, output]),
        Some(Form::Default(words)) => put(out, "default", words),
        Some(Form::End) => put(out, "end", &[]),
        Some(Form::Row(words)) => put(out, "row", words),
        None => put(out, "none", &[]),
    }
}

fn has_form(alloc: Global, text: &str, wanted: &str) -> Result<bool, AllocError> {
    let words = words_of(alloc, text)?;
    let mut said = Vec::new(alloc);
    put_form(&mut said, form_of(&words))?;
    Ok(said.as_slice() == wanted.as_bytes())
}

// Lines, and what they say.
const FORMS: &[(&str, &str)] = &[
    (".model m", "model m"),
    (".model", "model"),
    (".model a b", "none"),
    (".inputs a \\\n b", "inputs a b"),
    (".inputs", "inputs"),
    (".inputs a,b", "none"),
    (".inputs ->a", "inputs ->a"),
    (".outputs Acc", "outputs Acc"),
    (".outputs (", "none"),
    (".mv a,b 2 x y", "domains a , b : 2 : x y"),
    (".mv a 007", "domains a : 007 :"),
    (".mv a 0", "none"),
    (".mv a 2 x", "none"),
    (".mv a,2", "none"),
    (".mv a b 2", "none"),
    (".mv a +2", "none"),
    (".mv a 1 )", "none"),
    (".mv 2", "none"),
    (".table a b -> c d", "table a b : c d"),
    (".table a ->b", "table a : b"),
    (".table a b", "table a : b"),
    (".names ->b", "table : b"),
    (".table b", "table : b"),
    (".table", "none"),
    (".table a ->", "none"),
    (".table a -> b -> c", "none"),
    (".reset a ->q", "reset a : q"),
    (".r q", "reset : q"),
    (".latch n q", "latch n q"),
    (".latch n", "none"),
    (".latch n q r", "none"),
    (".latch n ->", "none"),
    (".default - 0", "default - 0"),
    (".def (0,1)", "default ( 0 , 1 )"),
    (".end", "end"),
    (".end x", "none"),
    (".subckt a b", "none"),
    (".exdc", "none"),
    ("0 (a,b) ->c", "row 0 ( a , b ) ->c"),
];

#[test]
fn lines_have_their_forms(rt: HostRuntime) -> Result<(), Fail> {
    for &(text, wanted) in FORMS {
        assert!(rt; has_form(rt.alloc(), text, wanted)?, "{text:?}");
    }
    Ok(())
}

// Lines, and whether their words can be names where the line names something.
const NAMES: &[(&str, bool)] = &[
    (".model a-b", true),
    (".model a\\b", true),
    (".inputs a ->b", false),
    (".outputs a\\ b", false),
    (".mv a,b 2 x y", true),
    (".mv a,->b 2", false),
    (".mv a 2 x -", false),
    (".mv - 2 a->b x=", true),
    (".table a -> b", true),
    (".table a -> b\\ c", false),
    (".table ->->b", false),
    (".reset a\\ -> b", false),
    (".latch a .b", true),
    (".latch ->a b", false),
    (".default ->a", true),
    (".end", true),
    ("->a", true),
];

fn names_well(alloc: Global, text: &str) -> Result<Option<bool>, AllocError> {
    let words = words_of(alloc, text)?;
    match form_of(&words) {
        Some(form) => Ok(Some(has_names(form))),
        None => Ok(None),
    }
}

#[test]
fn lines_have_names(rt: HostRuntime) -> Result<(), Fail> {
    for &(text, wanted) in NAMES {
        assert!(rt; names_well(rt.alloc(), text)? == Some(wanted), "{text:?}");
    }
    Ok(())
}

// Words that name no value.
const NO_VALUES: &[&str] = &[".a", "!a", "=a", "-", ","];

#[test]
fn words_are_names_of_values(rt: HostRuntime) {
    assert!(rt; is_name(b"=a"));
    for &word in NO_VALUES {
        assert!(rt; !is_value_name(word.as_bytes()), "{word:?}");
    }
}

fn put_listed(out: &mut Vec<u8>, kind: &str, words: &[&[u8]]) -> Result<(), AllocError> {
    out.extend_from_slice(kind.as_bytes())?;
    let mut names = ListedNames::new(words);
    for _word in words {
        put_next(out, &mut names)?;
    }
    Ok(())
}

fn put_next(out: &mut Vec<u8>, names: &mut ListedNames<'_, '_>) -> Result<(), AllocError> {
    match names.next_name() {
        Some(name) => put_word(out, name),
        None => Ok(()),
    }
}

fn put_entry(out: &mut Vec<u8>, entry: Spelled<'_, '_>) -> Result<(), AllocError> {
    match entry {
        Spelled::Dash => put(out, "any", &[]),
        Spelled::One(name) => put(out, "one", &[name]),
        Spelled::Listed(names) => put_listed(out, "listed", names),
        Spelled::NotThis(name) => put(out, "not", &[name]),
        Spelled::NotListed(names) => put_listed(out, "not-listed", names),
        Spelled::Same(name) => put(out, "same", &[name]),
    }
}

// The next entry and a semicolon, or a question mark.
fn put_column(out: &mut Vec<u8>, entries: &mut Entries<'_, '_>) -> Result<(), AllocError> {
    match entries.next_entry() {
        Some(entry) => put_entry(out, entry)?,
        None => put(out, "none", &[])?,
    }
    out.extend_from_slice(b";")
}

fn put_columns(
    out: &mut Vec<u8>,
    entries: &mut Entries<'_, '_>,
    width: usize,
) -> Result<(), AllocError> {
    for _column in 0..width {
        put_column(out, entries)?;
    }
    Ok(())
}

// Whether these are all entries at the front of the words, and the words spell so many exactly where nothing is left.
fn has_entries(
    alloc: Global,
    words: &[&[u8]],
    width: usize,
    wanted: &str,
) -> Result<bool, AllocError> {
    let mut said = Vec::new(alloc);
    let mut entries = Entries::new(words);
    put_columns(&mut said, &mut entries, width)?;
    Ok(
        said.as_slice() == wanted.as_bytes()
            && entries.next_entry().is_none()
            && spells(width, words) == entries.is_empty()
            && !spells(width.wrapping_add(1), words),
    )
}

fn is_row(alloc: Global, text: &str, width: usize, wanted: &str) -> Result<bool, AllocError> {
    let words = words_of(alloc, text)?;
    has_entries(alloc, &words, width, wanted)
}

// Rows, how many entries are at their front, and which.
const ROWS: &[(&str, usize, &str)] = &[
    ("- 0 a=", 3, "any;one 0;one a=;"),
    ("(a) (a,-,b)", 2, "listed a;listed a - b;"),
    (
        "!a !(a,b) ! (c) =x",
        4,
        "not a;not-listed a b;not-listed c;same x;",
    ),
    ("= !!", 2, "same ;not !;"),
    ("0 ()", 1, "one 0;"),
    ("(a,)", 0, ""),
    ("(a b)", 0, ""),
    ("(a", 0, ""),
    ("(!,a)", 0, ""),
    ("((a))", 0, ""),
    ("! a", 0, ""),
    ("!", 0, ""),
    ("0 , 1", 1, "one 0;"),
    (") 0", 0, ""),
];

#[test]
fn rows_have_their_entries(rt: HostRuntime) -> Result<(), Fail> {
    for &(text, width, wanted) in ROWS {
        assert!(rt; is_row(rt.alloc(), text, width, wanted)?, "{text:?}");
    }
    Ok(())
}

// Counts, and their numbers, of which those that are too large are the largest.
const COUNTS: &[(&str, u64)] = &[
    ("0", 0),
    ("0042", 42),
    ("18446744073709551614", u64::MAX - 1),
    ("18446744073709551616", u64::MAX),
    ("100000000000000000000000", u64::MAX),
];

#[test]
fn counts_have_their_numbers(rt: HostRuntime) {
    for &(text, wanted) in COUNTS {
        assert!(rt; number_of(text.as_bytes()) == wanted, "{text:?}");
    }
}
