ghost use Rattle.std.specs.List.{list_any};
ghost use Rattle.std.specs.Prelude.{◌≡◌, ◌≤◌, None};
ghost use Rattle.tp_base.specs.Lists.{Each};
ghost use Rattle.tp_choice.specs.Choosing.{best_from, better, chosen_of_proposals, greatest_by, is_over, member_stamp, recovery_choice, tells_slow, IsChosen};
ghost use Rattle.tp_topology.specs.Shape.{in_ring};

use crate::answer::RecoveryAnswer;
use tp_base::{Made, Rank, Stamp};
use tp_topology::Topology;

/// The stamp that a recovery puts to the vote: one that was accepted at the greatest ballot, or
/// else the greatest proposal of those that may have been decided.
pub fn choose(topology: &Topology, home: Rank, answers: &[RecoveryAnswer]) -> Stamp
    requires home { (1 ≤ home.0) × (home.0 ≤ topology.now.replicas) }
    requires ranks { Each (λ a. (1 ≤ a.rank.0) × (a.rank.0 ≤ topology.now.replicas)) answers.now }
    ensures choice { result.0 ≡ recovery_choice (in_ring topology.now home.0) home.0 answers.now }
    ensures chosen { IsChosen (in_ring topology.now home.0) home.0 answers.now result.0 }
{
    chosen(topology, home, answers)
}

#[tactic(auto, unfolding(crate::specs::Choosing::recovery_choice))]
fn chosen(topology: &Topology, home: Rank, answers: &[RecoveryAnswer]) -> Stamp
    requires home { (1 ≤ home.0) × (home.0 ≤ topology.now.replicas) }
    requires ranks { Each (λ a. (1 ≤ a.rank.0) × (a.rank.0 ≤ topology.now.replicas)) answers.now }
    ensures { result.0 ≡ recovery_choice (in_ring topology.now home.0) home.0 answers.now }
{
    if let Some(best) = best(answers) {
        if 0 < best.accepted {
            return best.stamp;
        }
    }
    Stamp(chosen_of_proposals(topology, home, answers))
}

fn chosen_of_proposals(topology: &Topology, home: Rank, answers: &[RecoveryAnswer]) -> u64
    requires home { (1 ≤ home.0) × (home.0 ≤ topology.now.replicas) }
    requires ranks { Each (λ a. (1 ≤ a.rank.0) × (a.rank.0 ≤ topology.now.replicas)) answers.now }
    ensures { result ≡ chosen_of_proposals (in_ring topology.now home.0) home.0 answers.now }
{
    if any_tells_slow(topology, home, answers) {
        greatest_stamp(answers)
    } else {
        greatest_member_stamp(topology, home, answers)
    }
}

/// The answer with the greatest accepted ballot, of the least rank among those.
fn best(answers: &[RecoveryAnswer]) -> Option<RecoveryAnswer>
    ensures { result ≡ best_from None answers.now }
{
    let mut found = None;
    for answer in answers {
        found = Some(better(*answer, found));
    }
    found
}

fn better(a: RecoveryAnswer, found: Option<RecoveryAnswer>) -> RecoveryAnswer
    ensures { result ≡ better a found }
{
    match found {
        Some(b) => { if is_over(&a, &b) { a } else { b } }
        None => a,
    }
}

fn is_over(a: &RecoveryAnswer, b: &RecoveryAnswer) -> bool
    ensures { result ≡ is_over a.now b.now }
{
    b.accepted < a.accepted || a.accepted == b.accepted && a.rank < b.rank
}

fn greatest_stamp(answers: &[RecoveryAnswer]) -> u64
    ensures { result ≡ greatest_by (λ a. a.stamp.0) answers.now }
{
    let mut top = 0;
    for answer in answers {
        top = answer.stamp.0.max(top);
    }
    top
}

fn member_stamp(topology: &Topology, home: Rank, answer: &RecoveryAnswer) -> u64
    requires home { (1 ≤ home.0) × (home.0 ≤ topology.now.replicas) }
    requires rank { (1 ≤ answer.now.rank.0) × (answer.now.rank.0 ≤ topology.now.replicas) }
    ensures { result ≡ member_stamp (in_ring topology.now home.0) answer.now }
{
    if topology.in_fast_quorum(home, answer.rank) {
        answer.stamp.0
    } else {
        0
    }
}

/// Whether an answer is of a member of the fast quorum that is the home, or whose proposal was made
/// by a recovery.
fn tells_slow(topology: &Topology, home: Rank, answer: &RecoveryAnswer) -> bool
    requires home { (1 ≤ home.0) × (home.0 ≤ topology.now.replicas) }
    requires rank { (1 ≤ answer.now.rank.0) × (answer.now.rank.0 ≤ topology.now.replicas) }
    ensures { result ≡ tells_slow (in_ring topology.now home.0) home.0 answer.now }
{
    topology.in_fast_quorum(home, answer.rank)
        && (answer.rank == home || answer.made == Made::Recovery)
}

fn greatest_member_stamp(topology: &Topology, home: Rank, answers: &[RecoveryAnswer]) -> u64
    requires home { (1 ≤ home.0) × (home.0 ≤ topology.now.replicas) }
    requires ranks { Each (λ a. (1 ≤ a.rank.0) × (a.rank.0 ≤ topology.now.replicas)) answers.now }
    ensures { result ≡ greatest_by (member_stamp (in_ring topology.now home.0)) answers.now }
{
    let mut top = 0;
    for answer in answers {
        top = member_stamp(topology, home, answer).max(top);
    }
    top
}

fn any_tells_slow(topology: &Topology, home: Rank, answers: &[RecoveryAnswer]) -> bool
    requires home { (1 ≤ home.0) × (home.0 ≤ topology.now.replicas) }
    requires ranks { Each (λ a. (1 ≤ a.rank.0) × (a.rank.0 ≤ topology.now.replicas)) answers.now }
    ensures { result ≡ list_any (tells_slow (in_ring topology.now home.0) home.0) answers.now }
{
    for answer in answers {
        if tells_slow(topology, home, answer) {
            return true;
        }
    }
    false
}
