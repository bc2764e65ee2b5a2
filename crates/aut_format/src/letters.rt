//! The variables of the letters, appended to the text that is being built.

ghost use Rattle.std.specs.Prelude.{◌≡◌, [], ◌∷◌, ◌++◌, map, codes, OnOk};
ghost use Rattle.std.specs.List.{flat_map};
ghost use Rattle.name_table.specs.Variables.{names_of};
ghost use Rattle.net_model.specs.Printed.{domain_line, line_bytes};
ghost use Rattle.aut_format.specs.Fields.{blank_before};

use crate::fields::{push_field, push_number};
use name_table::{Domain, Scope};
use std::alloc::AllocError;

/// The line with the names of the variables.
pub fn push_inputs(text: &mut Vec<u8>, scope: &Scope) -> Result<(), AllocError>
    ensures { OnOk result (text.new.items
        ≡ text.old.items ++ line_bytes (codes ".inputs" ∷ names_of scope.now)) }
{
    text.extend_from_slice(b".inputs")?;
    push_names(text, scope)?;
    text.push(b'\n')?;
    Ok(())
}

/// The head of the table of steps.
pub fn push_table_head(text: &mut Vec<u8>, scope: &Scope) -> Result<(), AllocError>
    ensures { OnOk result (text.new.items ≡ text.old.items ++ line_bytes (codes ".table"
        ∷ (names_of scope.now ++ (codes "CS" ∷ codes "->" ∷ codes "NS" ∷ [])))) }
{
    text.extend_from_slice(b".table")?;
    push_names(text, scope)?;
    text.extend_from_slice(b" CS -> NS\n")?;
    Ok(())
}

// The names of the variables, each after a blank.
fn push_names(text: &mut Vec<u8>, scope: &Scope) -> Result<(), AllocError>
    ensures { OnOk result (text.new.items ≡ text.old.items ++ blank_before (names_of scope.now)) }
{
    for var in 0..scope.len() {
        push_field(text, scope.name(var).unwrap())?;
    }
    Ok(())
}

/// The domain of each variable, a line for each.
pub fn push_domains(text: &mut Vec<u8>, scope: &Scope) -> Result<(), AllocError>
    ensures { OnOk result (text.new.items
        ≡ text.old.items ++ flat_map line_bytes (map domain_line scope.now)) }
{
    for var in 0..scope.len() {
        push_domain(text, scope.name(var).unwrap(), scope.domain(var).unwrap())?;
    }
    Ok(())
}

fn push_domain(text: &mut Vec<u8>, name: &[u8], domain: &Domain) -> Result<(), AllocError>
    ensures { OnOk result (text.new.items
        ≡ text.old.items ++ line_bytes (domain_line (record { name = name.now; values = domain.now }))) }
{
    text.extend_from_slice(b".mv")?;
    push_field(text, name)?;
    text.push(b' ')?;
    push_number(text, domain.len() as usize)?;
    push_values(text, domain)?;
    text.push(b'\n')?;
    Ok(())
}

// The names of the values, each after a blank.
fn push_values(text: &mut Vec<u8>, domain: &Domain) -> Result<(), AllocError>
    ensures { OnOk result (text.new.items ≡ text.old.items ++ blank_before domain.now) }
{
    for value in 0..domain.len() {
        let name = domain.name(value).unwrap();
        push_field(text, name.as_slice())?;
    }
    Ok(())
}
