//! Runs of scenes at two replicas, and their texts.

ghost use Rattle.std.specs.Prelude.{◌≡◌};

use crate::actions::Scene;
use crate::caller::{Caller, Replica, cut_callers};
use crate::channels::{Channels, Lines};
use crate::final_report::{FinalReplica, with_final_report};
use crate::fixtures::{book_from, join, operations};
use replica_lock::{Book, Pass, Shared};
use std::alloc::{AllocError, Global};
use std::marker::Brand;
use std::rt::Clock;
use std::sync::Wait;
use std::sync::ledger::{Blank, Ledger};
use std::thread;
use std::thread::Threads;

/// The callers of a replica, each of them in a thread.
pub type Callers<L> = Result<Vec<Caller<L>>, AllocError>;

/// Has the callers of one replica act, each in a thread.
fn run_all<L: Ledger + Send + Sync, R: Threads + Wait + Clock + Sync>(
    replica: &Replica<'_, L, R>,
    first: &mut Pass<L>,
) -> Callers<L> {
    let callers = cut_callers(
        replica.channels.alloc,
        replica.channels.threads.len(),
        first,
    );
    thread::map_vec(
        replica.channels.rt,
        callers,
        &|caller: Caller<L>| { caller.run(replica) },
    )
}

/// Has the callers of both replicas act, each in a thread.
fn run_both<L: Ledger + Send + Sync, M: Ledger + Send + Sync, R: Threads + Wait + Clock + Sync>(
    one: &Replica<'_, L, R>,
    other: &Replica<'_, M, R>,
    first: &mut Pass<L>,
    far_first: &mut Pass<M>,
) -> (Callers<L>, Callers<M>) {
    thread::join(
        one.channels.rt,
        || run_all(one, first),
        || run_all(other, far_first),
    )
}

/// Does the first actions of a scene, and then those of its threads.
fn perform<'a, L: Ledger + Send + Sync, M: Ledger + Send + Sync, R: Threads + Wait + Clock + Sync>(
    rt: &'a R,
    alloc: Global,
    scene: &Scene,
    lines: &'a Lines,
    replicas: (&'a Shared<L>, &'a Shared<M>),
    firsts: (&mut Caller<L>, &mut Caller<M>),
) -> (Callers<L>, Callers<M>) {
    let (shared, far_shared) = replicas;
    let (first, far_first) = firsts;
    let one = Replica {
        shared,
        channels: Channels {
            rt,
            alloc,
            own: 0,
            lines,
            threads: scene.first,
        },
    };
    let other = Replica {
        shared: far_shared,
        channels: Channels {
            rt,
            alloc,
            own: 1,
            lines,
            threads: scene.second,
        },
    };
    for (place, action) in scene.actions {
        if *place == 0 {
            first.act(&one, *action);
        } else {
            far_first.act(&other, *action);
        }
    }
    run_both(&one, &other, &mut first.pass, &mut far_first.pass)
}

/// Takes the book out with all passes, and returns it with the callers' outcomes.
fn finish_replica<L: Ledger>(
    alloc: Global,
    shared: Shared<L>,
    first: Caller<L>,
    callers: Callers<L>,
) -> FinalReplica
    requires { L.parts ≡ 4294967295 }
{
    let mut passes = Vec::new(alloc);
    let mut outcomes = Vec::new(alloc);
    if let Ok(callers) = callers {
        for caller in callers {
            let _ = outcomes.push(caller.into_outcomes(&mut passes));
        }
    }
    drop(first.into_outcomes(&mut passes));
    FinalReplica {
        book: shared.finish(passes),
        outcomes,
    }
}

/// The text of a scene at new replicas with these books.
fn play_scene<L: Ledger + Send + Sync, M: Ledger + Send + Sync, R: Threads + Wait + Clock + Sync>(
    rt: &R,
    alloc: Global,
    blank: Blank,
    far_blank: Blank,
    books: (Book, Book),
    scene: &Scene,
    lines: &Lines,
) -> Result<String, AllocError>
    requires one { (blank.name ≡ L.name) × (blank.parts ≡ L.parts) × (L.parts ≡ 4294967295) }
    requires two { (far_blank.name ≡ M.name)
        × (far_blank.parts ≡ M.parts)
        × (M.parts ≡ 4294967295) }
{
    let (shared, pass) = Shared::<L>::new(blank, books.0);
    let (far_shared, far_pass) = Shared::<M>::new(far_blank, books.1);
    let mut first = Caller::new(alloc, pass, None, 0);
    let mut far_first = Caller::new(alloc, far_pass, None, 0);
    let replicas = (&shared, &far_shared);
    let firsts = (&mut first, &mut far_first);
    let (callers, far_callers) = perform(rt, alloc, scene, lines, replicas, firsts);
    let one = finish_replica(alloc, shared, first, callers);
    let other = finish_replica(alloc, far_shared, far_first, far_callers);
    with_final_report(
        alloc,
        lines.output(rt, alloc),
        scene.final_report,
        one,
        other,
    )
}

/// The text of a scene at two replicas with these books. `Err` if memory runs out.
pub fn output_of<R: Threads + Wait + Clock + Sync>(
    rt: &R,
    alloc: Global,
    books: (Book, Book),
    scene: &Scene,
) -> Result<String, AllocError> {
    let whole = 4_294_967_295;
    let reports_messages = scene.first.is_empty() && scene.second.is_empty();
    match Lines::new(alloc, reports_messages) {
        Ok(lines) => play_scene::<Brand, Brand, R>(
            rt,
            alloc,
            Blank::new(whole),
            Blank::new(whole),
            books,
            scene,
            &lines,
        ),
        Err(fault) => {
            drop(books);
            Err(fault)
        }
    }
}

/// The replicas of a scene: new ones, but the second may have joined.
fn books(alloc: Global, uid: u32) -> Option<(Book, Book)> {
    let second = if uid == 0 {
        let ops = operations(alloc, &["1:1 - create a", "1:2 1=1 create b"])?;
        let joined = join(alloc, 2, &ops);
        drop(ops);
        joined
    } else {
        book_from(alloc, 2, uid)
    };
    book_from(alloc, 1, 1).zip(second)
}

/// The first scene whose text isn't the expected one, with its text; empty if there is none.
pub fn wrong_scene<R: Threads + Wait + Clock + Sync>(
    rt: &R,
    alloc: Global,
    scenes: &[Scene],
) -> Result<String, AllocError> {
    for scene in scenes {
        let name = scene.name;
        let Some(books) = books(alloc, scene.uid) else {
            return format!(in alloc; "{name}: no replicas\n");
        };
        let output = output_of(rt, alloc, books, scene)?;
        if !scene.is_expected(&output) {
            return format!(in alloc; "{name}:\n{output}");
        }
    }
    Ok(String::new(alloc))
}
