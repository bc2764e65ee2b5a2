//! That domains, names and scopes are made with ample memory, what their numbers and names are, and their refusals.

use name_table::{Domain, DomainFault, NameFault, Names, Scope, ScopeVar, ValueName, VarId};
use std::alloc::{AllocError, Global};
use std::test::Fail;

fn bytes_of(alloc: Global, text: &str) -> Result<Vec<u8>, AllocError> {
    Vec::from_slice(alloc, text.as_bytes())
}

fn push_name(list: &mut Vec<Vec<u8>>, name: &str) -> Result<(), AllocError> {
    let name = bytes_of(*list.allocator(), name)?;
    Ok(list.push(name)?)
}

fn list_of(alloc: Global, names: &[&str]) -> Result<Vec<Vec<u8>>, AllocError> {
    let mut list = Vec::new(alloc);
    for &name in names {
        push_name(&mut list, name)?;
    }
    Ok(list)
}

fn domain_of(alloc: Global, names: &[&str]) -> Result<Domain, DomainFault> {
    match list_of(alloc, names) {
        Ok(list) => Domain::of_names(alloc, list),
        Err(AllocError) => Err(DomainFault::Memory),
    }
}

fn is_name(found: Option<&[u8]>, wanted: &str) -> bool {
    match found {
        Some(name) => name == wanted.as_bytes(),
        None => false,
    }
}

fn is_value_name(found: Option<ValueName<'_>>, wanted: &str) -> bool {
    match found {
        Some(name) => name.as_slice() == wanted.as_bytes(),
        None => false,
    }
}

fn is_number(found: Option<u32>, wanted: u32) -> bool {
    match found {
        Some(number) => number == wanted,
        None => false,
    }
}

// Whether the domain has this value at this place, and at no other.
fn has_value(domain: &Domain, value: u32, name: &str) -> bool {
    is_value_name(domain.name(value), name) && is_number(domain.value_index(name.as_bytes()), value)
}

// Values of one domain.
const COLOURS: &[(u32, &str)] = &[(0, "red"), (1, "amber"), (2, "green")];

#[test]
fn makes_domains(rt: HostRuntime) -> Result<(), Fail> {
    let domain = domain_of(rt.alloc(), &["red", "amber", "green"])?;
    assert!(rt; domain.len() == 3);
    for &(value, name) in COLOURS {
        assert!(rt; has_value(&domain, value, name), "{name}");
    }
    assert!(rt; domain.name(3).is_none());
    assert!(rt; domain.value_index(b"Green").is_none());
    Ok(())
}

// Whether the domain of these values and a copy of it are that of the others.
fn are_same(alloc: Global, names: &[&str], others: &[&str]) -> Result<bool, DomainFault> {
    let other = domain_of(alloc, others)?;
    let domain = domain_of(alloc, names)?;
    let copy = domain.clone()?;
    Ok(domain.is_same(&other) && copy.is_same(&other) && copy.is_same(&domain))
}

#[test]
fn tells_domains_apart(rt: HostRuntime) -> Result<(), Fail> {
    let names = ["red", "amber", "green"];
    assert!(rt; are_same(rt.alloc(), &names, &["red", "amber", "green"])?);
    assert!(rt; !are_same(rt.alloc(), &names, &["red", "green", "amber"])?);
    Ok(())
}

#[test]
fn refuses_lists(rt: HostRuntime) {
    assert!(rt; domain_of(rt.alloc(), &[]).err() == Some(DomainFault::Empty));
    assert!(rt; domain_of(rt.alloc(), &["x", "x"]).err() == Some(DomainFault::Repeated));
}

#[test]
fn numbers_values(rt: HostRuntime) -> Result<(), Fail> {
    assert!(rt; Domain::numbered(rt.alloc(), 0).err() == Some(DomainFault::Empty));
    assert!(rt; Domain::numbered(rt.alloc(), 131_073).err() == Some(DomainFault::TooMany));
    let most = Domain::numbered(rt.alloc(), 131_072)?;
    assert!(rt; most.len() == 131_072);
    assert!(rt; has_value(&most, 0, "0"));
    assert!(rt; has_value(&most, 131_071, "131071"));
    assert!(rt; !most.is_same(&Domain::numbered(rt.alloc(), 2)?));
    Ok(())
}

// Adds a name with a domain of so many values.
fn add(names: &mut Names, alloc: Global, name: &str, values: u32) -> Result<VarId, NameFault> {
    match Domain::numbered(alloc, values) {
        Ok(domain) => names.add(name.as_bytes(), domain),
        Err(_) => Err(NameFault::Memory),
    }
}

// What a table says to names that are added one by one.
const ADDED: &[(&str, u32, Result<VarId, NameFault>)] = &[
    ("a", 2, Ok(VarId(0))),
    ("a", 2, Ok(VarId(0))),
    ("a", 3, Err(NameFault::DomainDiffers)),
    ("c", 65_537, Err(NameFault::TooManyValues)),
    ("b", 65_536, Ok(VarId(1))),
];

// Whether the variable has this name and is found by it.
fn has_var(names: &Names, var: VarId, name: &str) -> bool {
    is_name(names.name(var), name) && is_var(names.find(name.as_bytes()), var)
}

fn is_var(found: Option<VarId>, wanted: VarId) -> bool {
    match found {
        Some(var) => var == wanted,
        None => false,
    }
}

fn size_of(names: &Names, var: VarId) -> Option<u32> {
    match names.domain(var) {
        Some(domain) => Some(domain.len()),
        None => None,
    }
}

#[test]
fn adds_names(rt: HostRuntime) {
    let mut names = Names::new(rt.alloc());
    for &(name, values, wanted) in ADDED {
        assert!(rt; names.find(b"b").is_none());
        assert!(rt;
            add(&mut names, rt.alloc(), name, values) == wanted,
            "{name} of {values}"
        );
    }
    assert!(rt; names.len() == 2);
    assert!(rt; has_var(&names, VarId(0), "a") && has_var(&names, VarId(1), "b"));
    assert!(rt; size_of(&names, VarId(0)) == Some(2));
    assert!(rt; size_of(&names, VarId(2)).is_none());
}

// Adds a number as a name with a copy of the domain.
fn add_number(
    names: &mut Names,
    alloc: Global,
    domain: &Domain,
    number: u32,
) -> Result<VarId, NameFault> {
    let name = number.to_string(alloc)?;
    let domain = domain.clone()?;
    names.add(name.as_bytes(), domain)
}

// The table is full of names that share one large domain.
#[test]
fn fills_a_table(rt: HostRuntime) -> Result<(), Fail> {
    let shared = Domain::numbered(rt.alloc(), 65_536)?;
    let mut names = Names::new(rt.alloc());
    for number in 0..4_096 {
        assert!(rt;
            add_number(&mut names, rt.alloc(), &shared, number) == Ok(VarId(number)),
            "{number}"
        );
    }
    assert!(rt; add_number(&mut names, rt.alloc(), &shared, 4_096) == Err(NameFault::TooManyVars));
    assert!(rt; add_number(&mut names, rt.alloc(), &shared, 7) == Ok(VarId(7)));
    Ok(())
}

// Whether the scope's variable at this place has the name, and a domain of so many values.
fn is_at(scope: &Scope, place: u32, name: &str, values: u32) -> bool {
    is_name(scope.name(place), name) && is_number(size_at(scope, place), values)
}

fn size_at(scope: &Scope, place: u32) -> Option<u32> {
    match scope.domain(place) {
        Some(domain) => Some(domain.len()),
        None => None,
    }
}

fn act_scope(alloc: Global) -> Result<Scope, Fail> {
    let name = bytes_of(alloc, "act")?;
    let domain = domain_of(alloc, &["put", "get"])?;
    let vars = vec![in alloc; ScopeVar { name, domain }]?;
    Ok(Scope::of_vars(vars))
}

#[test]
fn makes_scopes(rt: HostRuntime) -> Result<(), Fail> {
    let scope = act_scope(rt.alloc())?;
    assert!(rt; scope.len() == 1 && is_at(&scope, 0, "act", 2));
    assert!(rt; scope.name(1).is_none() && scope.domain(1).is_none());
    let copy = scope.clone()?;
    assert!(rt; copy.len() == 1 && is_at(&copy, 0, "act", 2));
    assert!(rt; copy.domain(1).is_none());
    Ok(())
}

#[test]
fn chooses_variables(rt: HostRuntime) -> Result<(), Fail> {
    let mut names = Names::new(rt.alloc());
    add(&mut names, rt.alloc(), "a", 2)?;
    add(&mut names, rt.alloc(), "b", 3)?;
    assert!(rt; names.len() == 2);
    let scope = Scope::of(rt.alloc(), &names, &[VarId(1), VarId(0)])?;
    assert!(rt; is_at(&scope, 0, "b", 3) && is_at(&scope, 1, "a", 2));
    Ok(())
}
