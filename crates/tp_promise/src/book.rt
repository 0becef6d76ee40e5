ghost use Rattle.std.specs.Prelude.{◌≡◌, ◌≤◌, ◌<◌, ◌+◌, ◌∷◌, [], ℕ, List, Some, true, false, length, slice_get, IfOk, OnOk};
ghost use Rattle.tp_base.specs.declared.names.CommandId.{CommandId};
ghost use Rattle.tp_promise.specs.Books.{Commits, IsBook, replicas_of};
ghost use Rattle.tp_promise.specs.Pages.{AreTold, Page};
ghost use Rattle.tp_topology.specs.Counting.{all_up_to};
ghost use Rattle.tp_topology.specs.Stability.{Telling, is_counted};

use crate::page::Page;
use crate::ranges::Range;
use indexmap::IndexSet;
use std::alloc::Global;
use tp_base::{CommandId, NoMemory, Pairs, Rank};
use tp_topology::Topology;

/// What was told of the promises of each rank, and which commands are committed.
#[derive(Drop)]
pub struct Book {
    pages: Vec<Page>,
    committed: IndexSet<CommandId>,
}

impl Book {
    /// With nothing told and nothing committed.
    pub fn new(alloc: Global, topology: &Topology) -> Result<Book, NoMemory>
        ensures ranks { IfOk result (λ book. replicas_of book ≡ topology.now.replicas) }
        ensures empty { IfOk result (λ book. IsBook book [] []) }
    {
        let mut pages = Vec::with_capacity(alloc, usize::from(topology.replicas()))?;
        for _ in 0..topology.replicas() {
            pages.push(Page::new(alloc))?;
        }
        Ok(Book {
            pages,
            committed: IndexSet::new(alloc),
        })
    }

    /// Takes what a rank told: its promises above `lo` up to `hi`, of which these are attached.
    pub fn add(&mut self, rank: Rank, lo: u64, hi: u64, attached: &Pairs) -> Result<(), NoMemory>
        requires from { 1 ≤ rank.0 }
        requires to { rank.0 ≤ replicas_of self.old }
        requires some { lo < hi }
        requires attached { AreTold lo hi attached.now }
        ensures ranks { replicas_of self.new ≡ replicas_of self.old }
        ensures told { OnOk result ((told : List Telling) (committed : List CommandId) → IsBook self.old told committed
            → IsBook self.new (record { rank = rank.0; lo = lo; hi = hi; attached = attached.now } ∷ told) committed) }
    {
        let page = &mut self.pages[usize::from(rank.0) - 1];
        page.add(Range { lo, hi }, attached, &self.committed)?;
        Ok(())
    }

    /// Takes the commit of a command.
    pub fn committed(&mut self, id: CommandId) -> Result<(), NoMemory>
        ensures ranks { replicas_of self.new ≡ replicas_of self.old }
        ensures committed { OnOk result ((told : List Telling) (committed : List CommandId)
            → IsBook self.old told committed → IsBook self.new told (id ∷ committed)) }
    {
        self.committed.insert(id)?;
        commit_each(&mut self.pages, id);
        Ok(())
    }

    /// The greatest number up to which each from 1 on is counted for a rank.
    pub fn front(&self, rank: Rank) -> u64
        requires from { 1 ≤ rank.0 }
        requires to { rank.0 ≤ replicas_of self.now }
        ensures counted { (told : List Telling) (committed : List CommandId) → IsBook self.now told committed
            → all_up_to (is_counted told committed rank.0) result ≡ true }
        ensures stopped { (told : List Telling) (committed : List CommandId) → IsBook self.now told committed
            → is_counted told committed rank.0 (result + 1) ≡ false }
    {
        let page = &self.pages[usize::from(rank.0) - 1];
        page.front()
    }
}

/// Takes the commit of a command at the pages of all ranks.
fn commit_each(pages: &mut Vec<Page>, id: CommandId)
    ensures ranks { length pages.new.items ≡ length pages.old.items }
    ensures each { (i : ℕ) (page' : Page) → slice_get pages.new.items i ≡ Some page'
        → (page : Page) × (slice_get pages.old.items i ≡ Some page) × Commits id page page' }
{
    for i in 0..pages.len() {
        pages[i].commit(id);
    }
}
