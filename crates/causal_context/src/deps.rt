//! Dependencies in their order.

ghost use Rattle.std.specs.Prelude.{◌≡◌, ◌+◌, ◌<◌, ◌≤◌, ◌++◌, IfOk, IfErr, IfSome, OnOk, OnErr, vec_len, vec_capacity, length, set, slice_index_or};
ghost use Rattle.std.specs.List.{insert};
ghost use Rattle.rss_names.specs.Services.{same_service};
ghost use Rattle.causal_context.specs.Deps.{greater_dep, put_dep, deps_joined, deps_elsewhere, deps_fenced, given_dep};

use crate::dep::Dep;
use rss_names::{ServiceId, is_same_service};
use std::alloc::AllocError;

/// The place where a dependency belongs: that of the one on its register, else that where it is to
/// be inserted.
fn place_for(deps: &[Dep], dep: &Dep) -> Result<usize, usize>
    ensures found { IfOk result (λ place. place < length deps.now) }
    ensures replaced { IfOk result (λ place. put_dep dep.now deps.now ≡ set deps.now place (greater_dep (slice_index_or deps.now place dep.now) dep.now)) }
    ensures missing { IfErr result (λ place. place ≤ length deps.now) }
    ensures inserted { IfErr result (λ place. put_dep dep.now deps.now ≡ insert deps.now place dep.now) }
{
    for place in 0..deps.len() {
        if dep.key.index < deps[place].key.index {
            return Err(place);
        }
        if dep.key.index == deps[place].key.index {
            return Ok(place);
        }
    }
    Err(deps.len())
}

/// Puts a dependency among the others. There is room for it.
pub fn put(deps: &mut Vec<Dep>, dep: Dep)
    requires room { vec_len deps.old < vec_capacity deps.old }
    ensures same { deps.new.items ≡ put_dep dep deps.old.items }
    ensures longer { vec_len deps.new ≤ vec_len deps.old + 1 }
    ensures capacity { vec_capacity deps.new ≡ vec_capacity deps.old }
{
    match place_for(deps, &dep) {
        Ok(place) => {
            if dep.stamp.is_above(deps[place].stamp) {
                deps[place] = dep;
            }
        }
        Err(place) => {
            let _room = deps.insert(place, dep);
        }
    }
}

/// Puts each of the other dependencies among these. Where memory is wanting they stay.
pub fn join(deps: &mut Vec<Dep>, others: &[Dep]) -> Result<(), AllocError>
    ensures joined { OnOk result (deps.new.items ≡ deps_joined deps.old.items others.now) }
    ensures room { OnOk result (vec_capacity deps.old ≤ vec_capacity deps.new) }
    ensures refused { OnErr result (deps.new.items ≡ deps.old.items) }
    ensures refused_len { OnErr result (vec_len deps.new ≡ vec_len deps.old) }
    ensures refused_room { OnErr result (vec_capacity deps.new ≡ vec_capacity deps.old) }
{
    deps.reserve(others.len())?;
    for dep in others {
        put(deps, *dep);
    }
    Ok(())
}

/// Whether a dependency is on a register of this service.
pub fn is_of(dep: &Dep, id: ServiceId) -> bool
    ensures { result ≡ same_service id dep.now.key.service }
{
    is_same_service(id, dep.key.service)
}

/// Takes the dependencies on registers of this service away.
fn forget(deps: &mut Vec<Dep>, id: ServiceId)
    ensures same { deps.new.items ≡ deps_elsewhere id deps.old.items }
    ensures capacity { vec_capacity deps.new ≡ vec_capacity deps.old }
{
    deps.retain(|dep| !is_of(dep, id));
}

/// Takes the dependencies on registers of a register service away.
pub fn fence(deps: &mut Vec<Dep>, id: ServiceId)
    ensures same { deps.new.items ≡ deps_fenced id deps.old.items }
    ensures capacity { vec_capacity deps.new ≡ vec_capacity deps.old }
{
    if let ServiceId::Reg(_) = id {
        forget(deps, id);
    }
}

/// Takes all dependencies away, and puts the one given. There is room for it.
pub fn give(deps: &mut Vec<Dep>, dep: Option<Dep>)
    requires room { IfSome dep (λ _. 0 < vec_capacity deps.old) }
    ensures same { deps.new.items ≡ given_dep dep }
    ensures len { vec_len deps.new ≡ length (given_dep dep) }
    ensures capacity { vec_capacity deps.new ≡ vec_capacity deps.old }
{
    deps.clear();
    if let Some(dep) = dep {
        put(deps, dep);
    }
}
