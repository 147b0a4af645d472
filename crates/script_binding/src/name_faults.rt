//! Names that cannot stand in a statement.

ghost use Rattle.std.specs.Prelude.{◌≡◌, ◌≤◌, length, IfOk};
ghost use Rattle.std.specs.List.{list_any};
ghost use Rattle.script_binding.specs.Naming.{naming};
ghost use Rattle.script_binding.specs.Mentions.{in_pairs, written_keys};
ghost use Rattle.script_binding.specs.Limits.{HasFew};
ghost use Rattle.script_binding.specs.NameFaults.{is_known_as, first_unknown as first_unknown_of, is_key, service_named, is_foreign, foreign_to, first_service, first_foreign as first_foreign_of, same_set, repeats, first_repeat as first_repeat_of, double_in_txn, first_double as first_double_of};

use crate::mention::{Mention, RawStatement, Role, first_write, put_pairs, put_written_keys};
use crate::names::Names;
use pipeline_lang::{Compare, Expr, Statement};
use rss_names::{Name, ServiceId};
use std::alloc::{AllocError, Global};

// Whether a name in this role is one of the file.
fn is_known(names: &Names, name: &Name, role: Role) -> bool
    ensures { result ≡ is_known_as (naming names.now) name.now role }
{
    match role {
        Role::Variable => true,
        Role::Register => names.register(name).is_some(),
        Role::Key => names.key(name).is_some(),
        Role::Stage => names.stage_named(name).is_some(),
        Role::Pipe => names.pipe_named(name).is_some(),
    }
}

/// The token of the first name that is none of the file.
pub fn first_unknown(names: &Names, mentions: &[Mention]) -> Option<u64>
    ensures { result ≡ first_unknown_of (naming names.now) mentions.now }
{
    for mention in mentions {
        if !is_known(names, &mention.name, mention.role) {
            return Some(mention.token);
        }
    }
    None
}

// Whether a name stands for a key.
fn is_key(role: Role) -> bool
    ensures { result ≡ is_key role }
{
    match role {
        Role::Key => true,
        Role::Variable => false,
        Role::Register => false,
        Role::Stage => false,
        Role::Pipe => false,
    }
}

// The service of the key of a name.
fn service_named(names: &Names, name: &Name) -> ServiceId
    ensures { result ≡ service_named (naming names.now) name.now }
{
    match names.key(name) {
        Some(key) => key.service,
        None => ServiceId::Txn(0),
    }
}

// Whether a name stands for a key of another service than this one.
fn is_foreign(names: &Names, service: ServiceId, mention: &Mention) -> bool
    ensures { result ≡ is_foreign (naming names.now) service mention.now }
{
    is_key(mention.role) && service != service_named(names, &mention.name)
}

// The token of the first key of another service than this one.
fn foreign_to(names: &Names, service: ServiceId, mentions: &[Mention]) -> Option<u64>
    ensures { result ≡ foreign_to (naming names.now) service mentions.now }
{
    for mention in mentions {
        if is_foreign(names, service, mention) {
            return Some(mention.token);
        }
    }
    None
}

// The service of the first key.
fn first_service(names: &Names, mentions: &[Mention]) -> Option<ServiceId>
    ensures { result ≡ first_service (naming names.now) mentions.now }
{
    for mention in mentions {
        if is_key(mention.role) {
            return Some(service_named(names, &mention.name));
        }
    }
    None
}

/// The token of the first key of another service than the first key.
pub fn first_foreign(names: &Names, mentions: &[Mention]) -> Option<u64>
    ensures { result ≡ first_foreign_of (naming names.now) mentions.now }
{
    match first_service(names, mentions) {
        Some(service) => foreign_to(names, service, mentions),
        None => None,
    }
}

// Whether a member of a list repeats another.
fn repeats(member: &Mention, before: &Mention) -> bool
    ensures { result ≡ repeats member.now before.now }
{
    is_key(member.role) == is_key(before.role) && member.name == before.name
}

// Whether a member of a list repeats one of these.
fn repeats_any(member: &Mention, before: &[Mention]) -> bool
    ensures { result ≡ list_any (repeats member.now) before.now }
{
    before.iter().any(|other| repeats(member, other))
}

// The token of the first member of a list that stands in it before.
fn first_repeat(members: &[Mention]) -> Option<u64>
    ensures { result ≡ first_repeat_of members.now }
{
    for (index, member) in members.iter().enumerate() {
        if repeats_any(member, &members[..index]) {
            return Some(member.token);
        }
    }
    None
}

// The token of the first variable or key that stands twice in a list of pairs.
fn double_pair(alloc: Global, pairs: &[(Name, Name)]) -> Result<Option<u64>, AllocError>
    requires { length pairs.now ≤ 8 }
    ensures { IfOk result (λ token. token ≡ first_repeat_of (in_pairs 1 pairs.now)) }
{
    let mut members = Vec::new(alloc);
    put_pairs(&mut members, pairs)?;
    Ok(first_repeat(&members))
}

// The token of the first key that stands twice in a list of writes that begins at a token.
fn double_write(
    alloc: Global,
    first: u64,
    writes: &[(Name, Expr<Name>)],
) -> Result<Option<u64>, AllocError>
    requires few { length writes.now ≤ 8 }
    requires low { first ≤ 33 }
    ensures { IfOk result (λ token. token ≡ first_repeat_of (written_keys first writes.now)) }
{
    let mut members = Vec::new(alloc);
    put_written_keys(&mut members, first, writes)?;
    Ok(first_repeat(&members))
}

// The token of the first name that stands twice in a list of a `txn`.
fn double_in_txn(
    alloc: Global,
    pairs: &[(Name, Name)],
    guard: &Option<Compare<Name>>,
    writes: &[(Name, Expr<Name>)],
) -> Result<Option<u64>, AllocError>
    requires pairs { length pairs.now ≤ 8 }
    requires writes { length writes.now ≤ 8 }
    ensures { IfOk result (λ token. token ≡ double_in_txn pairs.now guard.now writes.now) }
{
    match double_pair(alloc, pairs)? {
        Some(token) => Ok(Some(token)),
        None => double_write(alloc, first_write(pairs, guard), writes),
    }
}

/// The token of the first variable or key that stands twice in one list.
pub fn first_double(alloc: Global, statement: &RawStatement) -> Result<Option<u64>, AllocError>
    requires { HasFew statement.now }
    ensures { IfOk result (λ token. token ≡ first_double_of statement.now) }
{
    match statement {
        Statement::Snap(pairs) => double_pair(alloc, pairs.as_slice()),
        Statement::Txn(pairs, guard, writes) => {
            double_in_txn(alloc, pairs.as_slice(), guard, writes.as_slice())
        }
        _ => Ok(None),
    }
}
