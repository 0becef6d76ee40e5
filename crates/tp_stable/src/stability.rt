ghost use Rattle.std.specs.Prelude.{◌≡◌, ◌≤◌, ◌<◌, ◌+◌, ℕ, List, true};
ghost use Rattle.tp_base.specs.declared.names.CommandId.{CommandId};
ghost use Rattle.tp_promise.specs.Books.{IsBook, replicas_of};
ghost use Rattle.tp_topology.specs.Counting.{all_up_to, count_up_to};
ghost use Rattle.tp_topology.specs.Stability.{Telling, is_counted, is_stable as is_stable_for};

use tp_base::{Rank, Stamp};
use tp_promise::Book;
use tp_topology::Topology;

/// The greatest stable number: that up to which each number is counted for some majority of the
/// ranks.
pub fn threshold(book: &Book, topology: &Topology) -> u64
    requires { replicas_of book.now ≡ topology.now.replicas }
    ensures stable { (told : List Telling) (committed : List CommandId) → IsBook book.now told committed
        → is_stable_for topology.now told committed result ≡ true }
    ensures greatest { (told : List Telling) (committed : List CommandId) (stamp : ℕ) → IsBook book.now told committed
        → is_stable_for topology.now told committed stamp ≡ true → stamp ≤ result }
{
    let mut top = 0;
    for k in 0..topology.replicas() {
        top = higher(book, topology, top, book.front(Rank(k + 1)));
    }
    top
}

/// Whether for some majority of the ranks each number up to a stamp is counted.
pub fn is_stable(book: &Book, topology: &Topology, stamp: Stamp) -> bool
    requires { replicas_of book.now ≡ topology.now.replicas }
    ensures { (told : List Telling) (committed : List CommandId) → IsBook book.now told committed
        → result ≡ is_stable_for topology.now told committed stamp.0 }
{
    topology.majority() <= count_to(book, topology, stamp.0)
}

/// A front that is stable and above a number, or else that number.
fn higher(book: &Book, topology: &Topology, top: u64, front: u64) -> u64
    requires { replicas_of book.now ≡ topology.now.replicas }
    ensures rises { top ≤ result }
    ensures stable { (told : List Telling) (committed : List CommandId) → IsBook book.now told committed
        → is_stable_for topology.now told committed top ≡ true
        → is_stable_for topology.now told committed result ≡ true }
    ensures low { (told : List Telling) (committed : List CommandId) → IsBook book.now told committed
        → is_stable_for topology.now told committed front ≡ true → front ≤ result }
{
    if top < front && is_stable(book, topology, Stamp(front)) {
        front
    } else {
        top
    }
}

/// Whether each number up to a stamp is counted for a rank.
fn counts_to(book: &Book, rank: Rank, stamp: u64) -> bool
    requires from { 1 ≤ rank.0 }
    requires to { rank.0 ≤ replicas_of book.now }
    ensures { (told : List Telling) (committed : List CommandId) → IsBook book.now told committed
        → result ≡ all_up_to (is_counted told committed rank.0) stamp }
{
    stamp <= book.front(rank)
}

/// For how many ranks each number up to a stamp is counted.
fn count_to(book: &Book, topology: &Topology, stamp: u64) -> u8
    requires { replicas_of book.now ≡ topology.now.replicas }
    ensures { (told : List Telling) (committed : List CommandId) → IsBook book.now told committed
        → result ≡ count_up_to (λ rank. all_up_to (is_counted told committed rank) stamp) topology.now.replicas }
{
    let mut count = 0;
    for k in 0..topology.replicas() {
        if counts_to(book, Rank(k + 1), stamp) {
            count += 1;
        }
    }
    count
}
