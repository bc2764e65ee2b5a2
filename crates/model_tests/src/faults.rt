//! What is printed of each fault, which no clause says.

use io_core::{LoadFault, SinkFault, WriteFault};
use name_table::{DomainFault, NameFault};
use net_model::{TextFault, TextKind, Which};
use std::alloc::{AllocError, Global};
use std::fmt::Display;
use std::test::Fail;

// Whether this is what is printed of the fault.
fn says(alloc: Global, fault: &impl Display, wanted: &str) -> Result<bool, AllocError> {
    let text = fault.to_string(alloc)?;
    Ok(text.as_str() == wanted)
}

const LOAD_FAULTS: &[(LoadFault, &str)] = &[
    (LoadFault::Failed, "the file cannot be read"),
    (LoadFault::Memory, "out of memory"),
];

const SINK_FAULTS: &[(SinkFault, &str)] = &[
    (SinkFault::Failed, "the sink takes no more"),
    (SinkFault::Memory, "out of memory"),
];

const WRITE_FAULTS: &[(WriteFault, &str)] = &[
    (WriteFault::Failed, "the text cannot be written"),
    (WriteFault::Memory, "out of memory"),
];

#[test]
fn faults_of_files_have_texts(rt: HostRuntime) -> Result<(), Fail> {
    for &(fault, wanted) in LOAD_FAULTS {
        assert!(rt; says(rt.alloc(), &fault, wanted)?, "{wanted}");
    }
    for &(fault, wanted) in SINK_FAULTS {
        assert!(rt; says(rt.alloc(), &fault, wanted)?, "{wanted}");
    }
    for &(fault, wanted) in WRITE_FAULTS {
        assert!(rt; says(rt.alloc(), &fault, wanted)?, "{wanted}");
    }
    Ok(())
}

const DOMAIN_FAULTS: &[(DomainFault, &str)] = &[
    (DomainFault::Empty, "a domain without values"),
    (DomainFault::Repeated, "a value name stands twice"),
    (DomainFault::TooMany, "too many values"),
    (DomainFault::Memory, "out of memory"),
];

const NAME_FAULTS: &[(NameFault, &str)] = &[
    (NameFault::DomainDiffers, "the name has another domain"),
    (NameFault::TooManyVars, "too many names"),
    (NameFault::TooManyValues, "too many values"),
    (NameFault::Memory, "out of memory"),
];

#[test]
fn faults_of_names_have_texts(rt: HostRuntime) -> Result<(), Fail> {
    for &(fault, wanted) in DOMAIN_FAULTS {
        assert!(rt; says(rt.alloc(), &fault, wanted)?, "{wanted}");
    }
    for &(fault, wanted) in NAME_FAULTS {
        assert!(rt; says(rt.alloc(), &fault, wanted)?, "{wanted}");
    }
    Ok(())
}

const TEXT_FAULTS: &[(TextFault, &str)] = &[
    (TextFault::Memory, "out of memory"),
    (
        TextFault::At {
            line: 1,
            kind: TextKind::UnknownDirective,
        },
        "line 1: UnknownDirective",
    ),
    (
        TextFault::At {
            line: 2,
            kind: TextKind::BadCount,
        },
        "line 2: BadCount",
    ),
    (
        TextFault::At {
            line: 3,
            kind: TextKind::UnknownValue,
        },
        "line 3: UnknownValue",
    ),
    (
        TextFault::At {
            line: 4,
            kind: TextKind::RowWidth,
        },
        "line 4: RowWidth",
    ),
    (
        TextFault::At {
            line: 5,
            kind: TextKind::EqDomain,
        },
        "line 5: EqDomain",
    ),
    (
        TextFault::At {
            line: 6,
            kind: TextKind::DrivenTwice,
        },
        "line 6: DrivenTwice",
    ),
    (
        TextFault::At {
            line: 7,
            kind: TextKind::Undriven,
        },
        "line 7: Undriven",
    ),
    (
        TextFault::At {
            line: 8,
            kind: TextKind::ResetNotConstant,
        },
        "line 8: ResetNotConstant",
    ),
    (
        TextFault::At {
            line: 9,
            kind: TextKind::AccShape,
        },
        "line 9: AccShape",
    ),
    (
        TextFault::At {
            line: 10,
            kind: TextKind::NoModel,
        },
        "line 10: NoModel",
    ),
    (
        TextFault::At {
            line: 11,
            kind: TextKind::TwiceDefault,
        },
        "line 11: TwiceDefault",
    ),
    (
        TextFault::At {
            line: 12,
            kind: TextKind::Hierarchy,
        },
        "line 12: Hierarchy",
    ),
    (
        TextFault::At {
            line: 13,
            kind: TextKind::BadName,
        },
        "line 13: BadName",
    ),
    (
        TextFault::At {
            line: 14,
            kind: TextKind::BadDomain,
        },
        "line 14: BadDomain",
    ),
    (
        TextFault::At {
            line: 16,
            kind: TextKind::BadWidth,
        },
        "line 16: BadWidth",
    ),
    (
        TextFault::At {
            line: 17,
            kind: TextKind::BadBit,
        },
        "line 17: BadBit",
    ),
    (
        TextFault::At {
            line: 18,
            kind: TextKind::UnknownReset,
        },
        "line 18: UnknownReset",
    ),
    (
        TextFault::At {
            line: 19,
            kind: TextKind::MissingWidths,
        },
        "line 19: MissingWidths",
    ),
    (
        TextFault::At {
            line: 20,
            kind: TextKind::NoRows,
        },
        "line 20: NoRows",
    ),
    (
        TextFault::At {
            line: 21,
            kind: TextKind::BadHeader,
        },
        "line 21: BadHeader",
    ),
    (
        TextFault::At {
            line: 22,
            kind: TextKind::BadLetter,
        },
        "line 22: BadLetter",
    ),
    (
        TextFault::At {
            line: 23,
            kind: TextKind::Limit(Which::Bytes),
        },
        "line 23: Limit Bytes",
    ),
    (
        TextFault::At {
            line: 24,
            kind: TextKind::Limit(Which::Signals),
        },
        "line 24: Limit Signals",
    ),
    (
        TextFault::At {
            line: 25,
            kind: TextKind::Limit(Which::Values),
        },
        "line 25: Limit Values",
    ),
    (
        TextFault::At {
            line: 26,
            kind: TextKind::Limit(Which::Columns),
        },
        "line 26: Limit Columns",
    ),
    (
        TextFault::At {
            line: 27,
            kind: TextKind::Limit(Which::Rows),
        },
        "line 27: Limit Rows",
    ),
    (
        TextFault::At {
            line: 28,
            kind: TextKind::Limit(Which::Bits),
        },
        "line 28: Limit Bits",
    ),
    (
        TextFault::At {
            line: 29,
            kind: TextKind::Limit(Which::Letters),
        },
        "line 29: Limit Letters",
    ),
];

#[test]
fn faults_of_texts_have_texts(rt: HostRuntime) -> Result<(), Fail> {
    for &(fault, wanted) in TEXT_FAULTS {
        assert!(rt; says(rt.alloc(), &fault, wanted)?, "{wanted}");
    }
    Ok(())
}
