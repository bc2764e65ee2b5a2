//! The domain that a line gives to its signals.

ghost use Rattle.std.specs.Prelude.{◌≡◌, ◌<◌, ◌≤◌, true, not, length, map, IfOk, OnOk};
ghost use Rattle.std.specs.List.{list_any};
ghost use Rattle.name_table.specs.Variables.{numbers};
ghost use Rattle.net_model.specs.Forms.{number_of, has_count};
ghost use Rattle.blifmv_lines.specs.Said.{texts, form_said, listed_names};
ghost use Rattle.blifmv_names.specs.Signals.{given_in, agrees, given_to_all, AreAgreeing};
ghost use Rattle.blifmv_names.specs.LineFaults.{HasCount, IsGiven, IsDomainOf, IsListOf};

use crate::signal_table::SignalTable;
use blifmv_lines::{Form, ListedNames, number_of};
use name_table::{Domain, DomainFault};
use std::alloc::{AllocError, Global};

// Gives the domain of a line to its signals, and says whether its values differ and none of them has another one.
pub(crate) fn give(
    alloc: Global,
    signals: &mut SignalTable,
    form: Form<'_, '_>,
) -> Result<bool, AllocError>
    requires { HasCount (form_said form) }
    ensures { IfOk result (λ given. IsGiven signals.old signals.new (form_said form.entry) given) }
{
    let Form::Domains {
        names,
        count,
        values,
    } = form
    else {
        return Ok(true);
    };
    let Some(domain) = domain_of(alloc, count, values)? else {
        return Ok(false);
    };
    let clashes = has_another(alloc, signals, names, &domain)?;
    if clashes {
        return Ok(false);
    }
    give_all(signals, names, &domain)?;
    Ok(true)
}

// The domain with these values, or with so many numbers where there are none. None where a value stands twice.
fn domain_of(alloc: Global, count: &[u8], values: &[&[u8]]) -> Result<Option<Domain>, AllocError>
    requires count { has_count count.now (texts values.now) ≡ true }
    requires few { number_of count.now ≤ 65536 }
    ensures { IfOk result (λ found. IsDomainOf count.now (texts values.now) found) }
{
    if values.is_empty() {
        let domain = numbered(alloc, number_of(count) as u32)?;
        Ok(Some(domain))
    } else {
        named(alloc, values)
    }
}

fn numbered(alloc: Global, count: u32) -> Result<Domain, AllocError>
    requires some { 0 < count }
    requires few { count ≤ 65536 }
    ensures { IfOk result (λ domain. domain ≡ numbers count) }
{
    match Domain::numbered(alloc, count) {
        Ok(domain) => Ok(domain),
        Err(DomainFault::Memory) => Err(AllocError),
        Err(DomainFault::Empty | DomainFault::Repeated | DomainFault::TooMany) => unreachable!(),
    }
}

fn named(alloc: Global, values: &[&[u8]]) -> Result<Option<Domain>, AllocError>
    requires some { 0 < length values.now }
    requires few { length values.now ≤ 65536 }
    ensures { IfOk result (λ found. IsListOf (texts values.now) found) }
{
    match Domain::of_names(alloc, copies(alloc, values)?) {
        Ok(domain) => Ok(Some(domain)),
        Err(DomainFault::Repeated) => Ok(None),
        Err(DomainFault::Memory) => Err(AllocError),
        Err(DomainFault::Empty | DomainFault::TooMany) => unreachable!(),
    }
}

fn copies(alloc: Global, words: &[&[u8]]) -> Result<Vec<Vec<u8>>, AllocError>
    ensures { IfOk result (λ names. map (λ n. n.items) names.items ≡ texts words.now) }
{
    let mut names = Vec::with_capacity(alloc, words.len())?;
    for word in words {
        names.push(word.to_vec(alloc)?)?;
    }
    Ok(names)
}

// Whether one of the names has another domain. A name that the line has again isn't compared again.
fn has_another(
    alloc: Global,
    signals: &SignalTable,
    names: &[&[u8]],
    domain: &Domain,
) -> Result<bool, AllocError>
    ensures { IfOk result (λ another. another ≡ list_any (λ name. not (agrees domain.now (given_in signals.now name))) (listed_names (texts names.now))) }
{
    let mut agreeing = SignalTable::new(alloc);
    let mut left = ListedNames::new(names);
    while let Some(name) = left.next_name() {
        if is_other(signals, name, domain, &mut agreeing)? {
            return Ok(true);
        }
    }
    Ok(false)
}

// Whether the name has another domain. Where it hasn't, it is put among those that agree.
fn is_other(
    signals: &SignalTable,
    name: &[u8],
    domain: &Domain,
    agreeing: &mut SignalTable,
) -> Result<bool, AllocError>
    requires { AreAgreeing domain.now signals.now agreeing.old }
    ensures other { IfOk result (λ other. other ≡ not (agrees domain.now (given_in signals.now name.now))) }
    ensures agreeing { OnOk result (AreAgreeing domain.now signals.now agreeing.new) }
{
    if agreeing.has(name) {
        return Ok(false);
    }
    if is_another(signals, name, domain) {
        return Ok(true);
    }
    agreeing.mention(name)?;
    Ok(false)
}

fn is_another(signals: &SignalTable, name: &[u8], domain: &Domain) -> bool
    ensures { result ≡ not (agrees domain.now (given_in signals.now name.now)) }
{
    match signals.given(name) {
        Some(had) => !domain.is_same(had),
        None => false,
    }
}

fn give_all(signals: &mut SignalTable, names: &[&[u8]], domain: &Domain) -> Result<(), AllocError>
    requires { length domain.now ≤ 65536 }
    ensures { OnOk result (signals.new ≡ given_to_all domain.now signals.old (listed_names (texts names.now))) }
{
    let mut left = ListedNames::new(names);
    while let Some(name) = left.next_name() {
        signals.give(name, domain)?;
    }
    Ok(())
}
