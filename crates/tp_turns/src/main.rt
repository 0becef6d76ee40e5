//! A benchmark of the shared journal: four desks take the turn and give it back, on four threads or on one.
//! With the word 4 or 1 it makes 1,000,000 turns on so many threads, and without a word 1,000 on four.
#![tactic(auto)]

mod turns;

use std::alloc::Global;
use std::env;
use std::process::ExitCode;
use std::sync::Wait;
use std::thread::Threads;
use tp_shared_tests::{small, small_session};
use turns::{Plan, in_turn};

fn main(rt: HostRuntime) -> ExitCode {
    let Some(plan) = plan_of(&rt) else {
        let _ = eprintln!(rt; "usage: tp_turns [1|4]");
        return ExitCode::from(2);
    };
    let Some(entries) = entries_after(&rt, rt.alloc(), plan) else {
        let _ = eprintln!(rt; "out of memory");
        return ExitCode::from(1);
    };
    let turns = plan.each as u64 * 4;
    let written = println!(rt; "turns {turns}\nentries {entries}");
    ExitCode::from(written.is_err() as u8)
}

// The plan by the word of the command line.
fn plan_of(rt: &HostRuntime) -> Option<Plan> {
    let mut words = env::args(rt).ok()?.skip(1);
    let Some(word) = words.next() else {
        return Some(Plan {
            threads: true,
            each: 250,
        });
    };
    let threads = word.as_str() == "4";
    if !threads && word.as_str() != "1" {
        return None;
    }
    Some(Plan {
        threads,
        each: 250_000,
    })
}

// The number of entries of the closed journal.
fn entries_after<R: Threads + Wait + Sync>(rt: &R, alloc: Global, plan: Plan) -> Option<usize> {
    let Ok(Some(script)) = small(alloc) else {
        return None;
    };
    let Ok(one) = small_session(alloc, &script, 1) else {
        return None;
    };
    let Ok(two) = small_session(alloc, &script, 2) else {
        return None;
    };
    let journal = in_turn(rt, alloc, &script, one, two, plan)?;
    Some(journal.entries().len())
}
