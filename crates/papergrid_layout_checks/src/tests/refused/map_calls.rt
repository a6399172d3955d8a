//! Calls of a map by entity, made at once.

use super::{ONLY, keeps, says};
use papergrid_maps::{EntityMap, MapCall, Stopped};
use papergrid_values::Entity;
use std::alloc::{AllocError, Global};
use std::test::Fail;

fn ten_calls(alloc: Global) -> Result<Vec<MapCall<char>>, AllocError> {
    Ok(vec![in alloc;
        MapCall::Insert(Entity::Row(1), 'a'),
        MapCall::Insert(Entity::Column(1), 'b'),
        MapCall::Insert(Entity::Cell(2, 2), 'c'),
        MapCall::Remove(Entity::Row(1)),
        MapCall::Insert(Entity::Column(2), 'd'),
        MapCall::Insert(Entity::Global, 'e'),
        MapCall::Insert(Entity::Row(3), 'f'),
        MapCall::Insert(Entity::Row(4), 'g'),
        MapCall::Remove(Entity::Cell(9, 9)),
        MapCall::Insert(Entity::Column(5), 'h'),
    ]?)
}

fn make(map: &mut EntityMap<char>, call: &MapCall<char>) -> Result<(), AllocError> {
    match call {
        MapCall::Insert(entity, value) => map.insert(*entity, *value),
        MapCall::Remove(entity) => {
            map.remove(*entity);
            Ok(())
        }
    }
}

/// A map that is given the first of ten calls, one by one.
fn with_first(alloc: Global, count: usize) -> Result<EntityMap<char>, AllocError> {
    let mut calls = ten_calls(alloc)?;
    calls.truncate(count);
    let mut map = EntityMap::new(alloc, 'g');
    for call in &calls {
        make(&mut map, call)?;
    }
    Ok(map)
}

#[test]
fn apply_all(rt: HostRuntime) -> Result<(), Fail> {
    let calls = ten_calls(rt.alloc())?;
    let mut map = EntityMap::new(rt.alloc(), 'g');
    match map.apply_all(calls) {
        Ok(()) => Ok(()),
        Err(Stopped { done }) => {
            let like = with_first(rt.alloc(), done)?;
            keeps(&rt, ONLY, map, like, Err::<(), AllocError>(AllocError))
        }
    }
}

#[test]
fn clone_of_calls(rt: HostRuntime) -> Result<(), Fail> {
    let calls = ten_calls(rt.alloc())?;
    says(ONLY, calls.clone())
}
