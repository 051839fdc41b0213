//! Calls on a scene that begins anew for each row: `calls` makes them, and holds each answer to the one that is wanted.

use crate::scene::Scene;
use calls::{Answer, Call, try_rows};
use fallible_list::NoMemory;
use rows::{CASES, Case, FIRST};
use std::process::Abort;
use std::sync::Wait;
use std::test::Fail;

mod calls;
mod payments;
mod reclaims;
mod rows;

// A scene of a case, where memory ran out a second one. A scene is let go in few places, since each place costs the proof much.
fn first<R: AllocGlobal>(rt: &R) -> Result<Scene, NoMemory> {
    match Scene::first(rt.alloc()) {
        Ok(scene) => Ok(scene),
        Err(NoMemory) => Scene::first(rt.alloc()),
    }
}

fn after_mark_end<R: AllocGlobal + Wait>(
    rt: &R,
    chunks: u32,
    spans: &[(u32, bool)],
) -> Result<Scene, NoMemory> {
    match Scene::after_mark_end(rt, rt.alloc(), chunks, spans) {
        Ok(scene) => Ok(scene),
        Err(NoMemory) => Scene::after_mark_end(rt, rt.alloc(), chunks, spans),
    }
}

// The calls of a case answer as they should.
fn try_first<R: Abort + Wait + Print + AllocGlobal>(
    rt: &R,
    rows: &[(Call, Answer)],
) -> Result<(), NoMemory> {
    let mut scene = first(rt)?;
    try_rows(rt, &mut scene, 1, &[], rows)
}

fn try_case<R: Abort + Wait + Print + AllocGlobal>(rt: &R, row: &Case) -> Result<(), NoMemory> {
    let mut scene = after_mark_end(rt, row.chunks, row.spans)?;
    try_rows(rt, &mut scene, row.chunks, row.spans, row.calls)
}

#[test]
fn calls_answer_by_the_rules(rt: HostRuntime) -> Result<(), Fail> {
    for rows in &FIRST {
        try_first(&rt, rows)?;
    }
    for row in &CASES {
        try_case(&rt, row)?;
    }
    Ok(())
}
