//! Texts whose first faults of lines, and names, were worked out by hand from the format.

use crate::shown::{put, put_domain, put_name, put_number};
use blifmv_names::read_names;
use name_table::{Names, VarId};
use net_model::{TextFault, TextKind, Which};
use std::alloc::{AllocError, Global};
use std::test::Fail;

// Texts, with the line and the kind of the first fault.
const FAULTS: &[(&str, u64, TextKind)] = &[
    // Nothing opens a model.
    ("", 1, TextKind::NoModel),
    ("# none\n\n.inputs a\n.model m", 3, TextKind::NoModel),
    ("\n\\\n\\\na", 2, TextKind::NoModel),
    (".models m", 1, TextKind::NoModel),
    // Directives that the format doesn't have, and words behind the end.
    (".model m\n\n.exdc", 3, TextKind::UnknownDirective),
    (".model m\n.e", 2, TextKind::UnknownDirective),
    (".model m\n.end x", 2, TextKind::UnknownDirective),
    (".model m\n.end\n# over\nx", 4, TextKind::UnknownDirective),
    (".model m\n.end\n.end", 3, TextKind::UnknownDirective),
    (
        ".model m\n.end\n.subckt n s a=b",
        3,
        TextKind::UnknownDirective,
    ),
    // Lines without the shape of their directive.
    (".model m\n.inputs a\n.latch a", 3, TextKind::BadCount),
    (".model m\n.mv a 0", 2, TextKind::BadCount),
    (".model m\n.table a ->->", 2, TextKind::BadCount),
    (".model m\n.model a b", 2, TextKind::BadCount),
    (".model m\n.end\n.model a b", 3, TextKind::BadCount),
    // Rows and defaults that fit no table.
    (".model m\n.inputs a\n0", 3, TextKind::RowWidth),
    (".model m\n.default 0", 2, TextKind::RowWidth),
    (".model m\n.table a -> b\n- -\n0", 4, TextKind::RowWidth),
    (".model m\n.table b\n.def", 3, TextKind::RowWidth),
    (".model m\n.reset b\n(0", 3, TextKind::RowWidth),
    (".model m\n.table b\n! 0", 3, TextKind::RowWidth),
    (".model m\n.table b\n.latch b c\n0", 4, TextKind::RowWidth),
    // A second default of a table.
    (
        ".model m\n.table b\n.default 0\n1\n.def 1",
        5,
        TextKind::TwiceDefault,
    ),
    (
        ".model m\n.table b\n.def 0\n.table c\n.def 0\n.def 0",
        6,
        TextKind::TwiceDefault,
    ),
    // Counts.
    (
        ".model m\n.mv a 99999999999999999999",
        2,
        TextKind::Limit(Which::Values),
    ),
    (
        ".model m\n.mv a 65536\n.mv b 65537",
        3,
        TextKind::Limit(Which::Values),
    ),
    // More than one model.
    (
        ".model m\n.inputs a\n.subckt n s a=b",
        3,
        TextKind::Hierarchy,
    ),
    (".model m\n.inputs a\n.model", 3, TextKind::Hierarchy),
    (".model m\n.end\n.model n", 3, TextKind::Hierarchy),
    // Words that can't be names.
    (".model m\n.inputs a ->b", 2, TextKind::BadName),
    (".model m\n.reset ->->c", 2, TextKind::BadName),
    (".model m\n.mv a 2 x -", 2, TextKind::BadName),
    (".model m\n.inputs a \\\n ->b\n.exdc", 2, TextKind::BadName),
    // Domains.
    (".model m\n.inputs a\n.mv a 2 x x", 3, TextKind::BadDomain),
    (".model m\n.mv a 2 x y\n.mv a 2 y x", 3, TextKind::BadDomain),
    (".model m\n.mv a 2 x y\n.mv b,a 2", 3, TextKind::BadDomain),
    // Two faults on one line.
    (
        ".model m\n.table b\n.default 0\n.default 0 0",
        4,
        TextKind::RowWidth,
    ),
    (".model m\n.mv ->a 65537", 2, TextKind::Limit(Which::Values)),
    (".model m\n.model ->n", 2, TextKind::Hierarchy),
    (".model m\n.mv a 2 - -", 2, TextKind::BadName),
    // Two lines with a fault.
    (
        ".model m\n.exdc\n.mv a 2 x x",
        2,
        TextKind::UnknownDirective,
    ),
    (
        ".model m\n.mv a 2 x x\n.inputs ->b\n.exdc",
        2,
        TextKind::BadDomain,
    ),
];

fn fault_of(alloc: Global, text: &[u8]) -> Option<TextFault> {
    read_names(alloc, text).err()
}

#[test]
fn first_faults_of_lines_are_told(rt: HostRuntime) {
    for &(text, line, kind) in FAULTS {
        let wanted = Some(TextFault::At { line, kind });
        assert!(rt; fault_of(rt.alloc(), text.as_bytes()) == wanted, "{text:?}");
    }
}

// A model with so many inputs, which have the numbers for names, and this text behind them.
fn inputs_text(alloc: Global, count: u32, end: &str) -> Result<Vec<u8>, AllocError> {
    let mut text = b".model m".to_vec(alloc)?;
    for number in 0..count {
        put_number(&mut text, "\n.inputs ", number)?;
    }
    put(&mut text, end)?;
    Ok(text)
}

// A model with a table of so many columns.
fn columns_text(alloc: Global, count: u32) -> Result<Vec<u8>, AllocError> {
    let mut text = b".model m\n.table ->".to_vec(alloc)?;
    for _column in 0..count {
        put(&mut text, " a")?;
    }
    Ok(text)
}

// Whether the text passes the limit on this line, or none.
fn has_limit(alloc: Global, text: &[u8], wanted: Option<(u64, Which)>) -> bool {
    let fault = fault_of(alloc, text);
    match wanted {
        Some((line, which)) => {
            let kind = TextKind::Limit(which);
            fault == Some(TextFault::At { line, kind })
        }
        None => fault.is_none(),
    }
}

// What stands behind the inputs, and the limit that is passed.
const ENDS: &[(&str, Option<(u64, Which)>)] = &[
    ("\n.table 0 -> 4095", None),
    (
        "\n.table 0 -> 4095\n.outputs 4096",
        Some((4_099, Which::Signals)),
    ),
];

#[test]
fn signals_have_a_limit(rt: HostRuntime) -> Result<(), Fail> {
    for &(end, wanted) in ENDS {
        let text = inputs_text(rt.alloc(), 4_096, end)?;
        assert!(rt; has_limit(rt.alloc(), &text, wanted), "{end}");
    }
    Ok(())
}

const COLUMNS: &[(u32, Option<(u64, Which)>)] = &[(256, None), (257, Some((2, Which::Columns)))];

#[test]
fn columns_have_a_limit(rt: HostRuntime) -> Result<(), Fail> {
    for &(count, wanted) in COLUMNS {
        let text = columns_text(rt.alloc(), count)?;
        assert!(rt; has_limit(rt.alloc(), &text, wanted), "{count}");
    }
    Ok(())
}

// A name with its values behind it, and then a semicolon.
fn put_var(out: &mut Vec<u8>, names: &Names, var: VarId) -> Result<(), AllocError> {
    put_name(out, "", names.name(var))?;
    if let Some(domain) = names.domain(var) {
        put_domain(out, " ", domain, "")?;
    }
    put(out, ";")
}

fn put_names(out: &mut Vec<u8>, names: &Names) -> Result<(), AllocError> {
    for number in 0..names.len() {
        put_var(out, names, VarId(number))?;
    }
    Ok(())
}

fn names_text(alloc: Global, text: &str) -> Result<Vec<u8>, Fail> {
    let names = read_names(alloc, text.as_bytes())?;
    let mut out = Vec::new(alloc);
    put_names(&mut out, &names)?;
    Ok(out)
}

const MIXED: &str =
    "# three values\r\n.model mix\r\n.inputs a b\r\n.outputs y z y\r\n.mv a,y 3 r g k\r\n.table a \\\r\n  b -> y\r\n.default =a\r\n!( r , g ) 1 r\r\n.mv w, b 2 on off\r\n.reset ->q\r\n0\r\n.def 0\r\n.latch z q\r\n.mv z 2\r\n.mv z 2 0 1\r\n.mv y 003 r g k\r\n.end\r\n# over\r\n";

// Texts, and their names with their values.
const NAMED: &[(&str, &str)] = &[
    (MIXED, "a r g k;b on off;y r g k;z 0 1;w on off;q 0 1;"),
    (".model", ""),
];

#[test]
fn names_have_their_domains(rt: HostRuntime) -> Result<(), Fail> {
    for &(text, wanted) in NAMED {
        assert!(rt;
            names_text(rt.alloc(), text)?.as_slice() == wanted.as_bytes(),
            "{text:?}"
        );
    }
    Ok(())
}
