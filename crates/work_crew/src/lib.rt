//! Workers on threads of their own over one set of tables.
#![tactic(auto)]

ghost use Rattle.std.specs.Prelude.{◌≡◌, All, IfOk};
ghost use Rattle.tables.specs.Sound.{IsSound};

use std::alloc::Global;
use std::sync::Wait;
use std::thread;
use std::thread::Threads;
use sv_base::NoMemory;
use sv_outside::{Clock, Disk, Gate};
use tables::{Tables, Work};
use tables_lock::{Lock, Seat};
use worker_loop::work;

// The number of each worker, from 0, and its seat.
fn posts<D: Disk, W: Work>(
    alloc: Global,
    lock: &Lock<D, W>,
    seat: &mut Seat<D, W>,
    workers: u32,
) -> Result<Vec<(u32, Seat<D, W>)>, NoMemory>
    requires own { seat.old.seat.table_id ≡ lock.now.table.shared.table_id }
    ensures own { seat.new.seat.table_id ≡ lock.now.table.shared.table_id }
    ensures opening { seat.new.seat.me.0.opening ≡ seat.old.seat.me.0.opening }
    ensures all { IfOk result (λ v. All (λ p. (p.1.seat.table_id ≡ lock.now.table.shared.table_id) × (p.1.seat.me.0.opening ≡ seat.old.seat.me.0.opening)) v.items) }
{
    let mut posts = Vec::new(alloc);
    'workers: for number in 0..workers {
        let other = lock.split(alloc, seat)?;
        posts.push((number, other))?;
    }
    Ok(posts)
}

// Lets the workers work until each of them leaves.
fn run<R: Threads + Wait + Sync, D: Disk + Send, W: Work + Sync, C: Clock + Sync, G: Gate + Sync>(
    rt: &R,
    alloc: Global,
    lock: &Lock<D, W>,
    posts: Vec<(u32, Seat<D, W>)>,
    task: &W,
    clock: &C,
    gate: &G,
)
    requires { All (λ p. (p.1.seat.table_id ≡ lock.now.table.shared.table_id) × (p.1.seat.me.0.opening.work.value ≡ task.now)) posts.items }
{
    let done = thread::map_vec(
        rt,
        posts,
        &|post: (u32, Seat<D, W>)|
            requires { (post.1.seat.table_id ≡ lock.now.table.shared.table_id) × (post.1.seat.me.0.opening.work.value ≡ task.now) }
        {
            let (number, seat) = post;
            work(rt, alloc, lock, seat, task, clock, gate, number)
        },
    );
    drop(done);
}

/// Lets so many workers do the tasks of a work, each on a thread of its own, and waits for all of them. Where memory runs
/// out, a disk fails or a database is full, some work may be left.
pub fn work_together<
    R: Threads + Wait + Sync,
    D: Disk + Send,
    W: Work + Sync,
    C: Clock + Sync,
    G: Gate + Sync,
>(
    rt: &R,
    alloc: Global,
    tables: Tables<D, W>,
    work: &W,
    clock: &C,
    gate: &G,
    workers: u32,
) -> Tables<D, W>
    requires sound { IsSound D.told D.seen D.faults tables }
    requires work { tables.opening.work.value ≡ work.now }
    ensures sound { IsSound D.told D.seen D.faults result }
    ensures opening { result.opening ≡ tables.opening }
{
    let (lock, mut seat) = match Lock::open(alloc, tables) {
        Ok(opened) => opened,
        Err((tables, NoMemory)) => return tables,
    };
    if let Ok(posts) = posts(alloc, &lock, &mut seat, workers) {
        run(rt, alloc, &lock, posts, work, clock, gate);
    }
    lock.close(rt, seat)
}
