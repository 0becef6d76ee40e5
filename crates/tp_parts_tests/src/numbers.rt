//! The parts that choose numbers: clocks, proposals, ballots, recoveries and promises.

ghost use Rattle.std.specs.Prelude.{◌≡◌, ◌≤◌};
ghost use Rattle.tp_promise.specs.Books.{replicas_of};

use std::alloc::Global;
use std::process::Abort;
use std::test::Fail;
use tp_base::Made::{Proposal, Recovery};
use tp_base::{
    CommandId, Made, NoMemory, Pair, Pairs, PartitionId, Rank, Sequence, SessionId, Stamp,
};
use tp_choice::{RecoveryAnswer, choose};
use tp_clock::Clock;
use tp_paxos::{Acceptor, Proposer, next_ballot};
use tp_promise::Book;
use tp_quorum::{FastChoice, Gather, Known};
use tp_stable::{is_stable, threshold};
use tp_topology::Topology;

#[test]
fn a_clock_proposes_bumps_and_tells(rt: HostRuntime) {
    let mut clock = Clock::new();
    assert!(rt; clock.now() == 0 && clock.told() == 0);
    assert_eq!(rt; clock.propose(0), Stamp(1));
    clock.bump(4);
    clock.bump(2);
    assert_eq!(rt; clock.tell(), (0, 4));
    assert!(rt; clock.now() < 10);
    assert_eq!(rt; clock.propose(9), Stamp(9));
    assert_eq!(rt; clock.tell(), (4, 9));
}

// The choice of rank 1 of five, of which two may fail, from its own proposal 1 and those of three more ranks.
fn gathered(rt: &impl Abort, second: u64, third: u64, fourth: u64) -> Result<FastChoice, Fail> {
    let topology = Topology::new(1, 5, 2)?;
    let mut gather = Gather::new();
    gather.put(Rank(1), Stamp(1));
    gather.put(Rank(2), Stamp(second));
    gather.put(Rank(3), Stamp(third));
    gather.put(Rank(4), Stamp(fourth));
    assert!(rt; !gather.put(Rank(4), Stamp(9)) && gather.len() == topology.fast_size());
    Ok(gather.choice(&topology))
}

#[test]
fn chosen_fast_where_enough_proposals_are_equal(rt: HostRuntime) -> Result<(), Fail> {
    assert_eq!(rt; gathered(&rt, 1, 1, 2)?, FastChoice::Slow(Stamp(2)));
    assert_eq!(rt; gathered(&rt, 1, 2, 2)?, FastChoice::Fast(Stamp(2)));
    Ok(())
}

#[test]
fn the_first_stamp_is_known(rt: HostRuntime) {
    let mut known = Known::new();
    assert!(rt; known.put(PartitionId(4), Stamp(3)) && !known.put(PartitionId(4), Stamp(5)));
    assert_eq!(rt; known.get(PartitionId(4)), Some(Stamp(3)));
}

#[test]
fn ballots_go_round_the_ranks(rt: HostRuntime) -> Result<(), Fail> {
    let topology = Topology::new(1, 3, 1)?;
    assert_eq!(rt; next_ballot(&topology, Rank(2), 6, 5), 8);
    assert_eq!(rt; next_ballot(&topology, Rank(2), 0, 0), 5);
    Ok(())
}

#[test]
fn an_acceptor_keeps_its_promise(rt: HostRuntime) {
    let mut acceptor = Acceptor::new();
    assert!(rt; acceptor.accept(1, Stamp(4)) && acceptor.promise(5) && !acceptor.promise(5));
    assert!(rt; !acceptor.accept(4, Stamp(6)) && acceptor.accepted_stamp == Stamp(4));
}

#[test]
fn the_third_vote_decides(rt: HostRuntime) -> Result<(), Fail> {
    let topology = Topology::new(1, 5, 2)?;
    let mut proposer = Proposer::new(&topology);
    proposer.attempt(6);
    proposer.put(6, Stamp(3));
    assert!(rt; proposer.vote(Rank(1), 6).is_none() && proposer.vote(Rank(1), 6).is_none());
    assert!(rt; proposer.vote(Rank(2), 7).is_none() && proposer.vote(Rank(4), 6).is_none());
    assert_eq!(rt; proposer.vote(Rank(3), 6), Some(Stamp(3)));
    Ok(())
}

const fn answer(rank: u8, stamp: u64, made: Made, accepted: u64) -> RecoveryAnswer
    ensures { result.rank.0 ≡ rank }
{
    RecoveryAnswer {
        rank: Rank(rank),
        stamp: Stamp(stamp),
        made,
        accepted,
    }
}

// The choice from these answers and one of rank 5, in a partition with five replicas, of which two may fail.
fn chosen(rt: &impl Abort, a: RecoveryAnswer, b: RecoveryAnswer) -> Result<Stamp, Fail> {
    let topology = Topology::new(1, 5, 2)?;
    assert!(rt; 1 <= a.rank.0 && a.rank.0 <= 5);
    assert!(rt; 1 <= b.rank.0 && b.rank.0 <= 5);
    Ok(choose(&topology, Rank(1), &[a, b, answer(5, 7, Recovery, 0)]))
}

#[test]
fn chosen_from_the_answers_of_a_recovery(rt: HostRuntime) -> Result<(), Fail> {
    let cases = [
        (answer(2, 4, Recovery, 0), answer(3, 2, Proposal, 0), 7),
        (answer(2, 4, Proposal, 0), answer(3, 2, Proposal, 0), 4),
        (answer(1, 1, Proposal, 0), answer(3, 2, Proposal, 0), 7),
        (answer(2, 3, Proposal, 9), answer(3, 8, Proposal, 6), 3),
    ];
    for (first, second, wanted) in cases {
        assert_eq!(rt; chosen(&rt, first, second)?, Stamp(wanted));
    }
    Ok(())
}

const ID: CommandId = CommandId {
    session: SessionId(1),
    number: 1,
};

// A rank tells that its promises are detached.
fn tell(book: &mut Book, alloc: Global, rank: u8, lo: u64, hi: u64) -> Result<(), NoMemory>
    requires from { 1 ≤ rank }
    requires to { rank ≤ replicas_of book.old }
    ensures { replicas_of book.new ≡ replicas_of book.old }
{
    if lo >= hi {
        return Ok(());
    }
    book.add(
        Rank(rank),
        lo,
        hi,
        &Pairs::new(alloc, Sequence::new(alloc))?,
    )
}

// A rank tells its first promise, attached to the command.
fn attach(book: &mut Book, alloc: Global, rank: u8) -> Result<(), NoMemory>
    requires from { 1 ≤ rank }
    requires to { rank ≤ replicas_of book.old }
    ensures { replicas_of book.new ≡ replicas_of book.old }
{
    let mut attached = Sequence::new(alloc);
    attached.add(Pair {
        id: ID,
        stamp: Stamp(1),
    })?;
    book.add(Rank(rank), 0, 1, &Pairs::new(alloc, attached)?)
}

#[test]
fn promises_out_of_order(rt: HostRuntime) -> Result<(), Fail> {
    let topology = Topology::new(1, 3, 1)?;
    let mut book = Book::new(rt.alloc(), &topology)?;
    tell(&mut book, rt.alloc(), 1, 2, 5)?;
    assert_eq!(rt; book.front(Rank(1)), 0);
    tell(&mut book, rt.alloc(), 1, 0, 2)?;
    assert_eq!(rt; book.front(Rank(1)), 5);
    attach(&mut book, rt.alloc(), 2)?;
    assert_eq!(rt; book.front(Rank(2)), 0);
    book.committed(ID)?;
    assert_eq!(rt; book.front(Rank(2)), 1);
    Ok(())
}

#[test]
fn three_of_four_fronts_are_needed(rt: HostRuntime) -> Result<(), Fail> {
    let topology = Topology::new(1, 4, 1)?;
    let mut book = Book::new(rt.alloc(), &topology)?;
    tell(&mut book, rt.alloc(), 1, 0, 7)?;
    tell(&mut book, rt.alloc(), 2, 0, 7)?;
    assert_eq!(rt; threshold(&book, &topology), 0);
    assert!(rt; !is_stable(&book, &topology, Stamp(7)));
    tell(&mut book, rt.alloc(), 3, 0, 5)?;
    assert_eq!(rt; threshold(&book, &topology), 5);
    Ok(())
}
