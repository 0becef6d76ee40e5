ghost use Rattle.std.specs.Bool.{OnFalse, OnTrue};
ghost use Rattle.std.specs.Prelude.{◌≡◌, ◌≤◌, ◌==◌, ◌&&◌, cond, is_none, length, nat_lt};
ghost use Rattle.tp_base.specs.Tables.{kept_at};
ghost use Rattle.tp_quorum.specs.Choice.{present};
ghost use Rattle.tp_rules.specs.Sheet.{acknowledged, can_acknowledge, is_made_by_proposal, is_member, ring_rule, stamp_of};
ghost use Rattle.tp_sheet.specs.SiteSheet.{choice_after_ack, choice_where_full, is_gathering, with_acknowledgement, with_own_ack, with_sheet};

use crate::sheet::Sheet;
use tp_base::{Made, Rank, Stamp};
use tp_quorum::FastChoice;

impl Sheet {
    /// Acknowledges the own proposal where that of another rank would be.
    pub fn acknowledge_own(&mut self, stamp: Stamp)
        ensures { self.new ≡ with_own_ack stamp.0 self.old }
    {
        self.count_proposal(self.own_rank(), stamp);
    }

    /// Takes a rank's proposal, and gives the choice where the whole fast quorum has acknowledged
    /// with it. What is chosen slowly is put to the vote at the own rank.
    pub fn acknowledge(&mut self, rank: Rank, stamp: Stamp) -> Option<FastChoice>
        ensures choice { result ≡ choice_after_ack rank.0 stamp.0 self.old }
        ensures taken { self.new ≡ with_acknowledgement rank.0 stamp.0 self.old }
    {
        if !self.topology.has_rank(rank) || !self.count_proposal(rank, stamp) {
            return None;
        }
        let choice = self.choice();
        if let Some(FastChoice::Slow(top)) = choice {
            self.put(u64::from(self.site.rank.0), top);
        }
        choice
    }

    /// Takes a rank's proposal where it counts, and tells whether it does.
    fn count_proposal(&mut self, rank: Rank, stamp: Stamp) -> bool
        requires some { 1 ≤ rank.0 }
        requires few { rank.0 ≤ self.old.shape.replicas }
        ensures counts { result ≡ can_acknowledge (ring_rule self.old.shape)
            self.old.site.partition.0 self.old.site.rank.0 rank.0 self.old.sheet }
        ensures counted { self.new ≡ with_sheet (cond result
            (acknowledged rank.0 stamp.0 self.old.sheet) self.old.sheet) self.old }
    {
        self.is_gathering(rank) && self.gather(rank, stamp)
    }

    /// Whether the first proposal of a rank counts.
    fn is_gathering(&self, rank: Rank) -> bool
        requires some { 1 ≤ rank.0 }
        requires few { rank.0 ≤ self.now.shape.replicas }
        ensures { result ≡ is_gathering rank.0 self.now }
    {
        self.is_member(rank)
            && self.has_proposed()
            && self.acceptor.ballot == 0
            && self.proposer.is_idle()
            && !self.knows(self.site.partition)
            && self.gathered() < self.topology.fast_size()
    }

    fn is_member(&self, rank: Rank) -> bool
        requires some { 1 ≤ rank.0 }
        requires few { rank.0 ≤ self.now.shape.replicas }
        ensures { result ≡ is_member (ring_rule self.now.shape) self.now.site.rank.0 rank.0 self.now.sheet.command }
    {
        match &self.command {
            None => false,
            Some(command) => {
                command.home == self.site.rank && self.topology.in_fast_quorum(command.home, rank)
            }
        }
    }

    fn has_proposed(&self) -> bool
        ensures { result ≡ is_made_by_proposal self.now.sheet.proposal }
    {
        match self.proposal {
            None => false,
            Some(proposed) => proposed.made == Made::Proposal,
        }
    }

    fn gather(&mut self, rank: Rank, stamp: Stamp) -> bool
        requires some { 1 ≤ rank.0 }
        requires few { rank.0 ≤ self.old.shape.replicas }
        ensures first { result ≡ is_none (kept_at self.old.sheet.acknowledged rank.0) }
        ensures kept { OnTrue result (self.new ≡ with_sheet (acknowledged rank.0 stamp.0 self.old.sheet) self.old) }
        ensures same { OnFalse result (self.new ≡ self.old) }
    {
        self.gathered.put(rank, stamp)
    }

    fn gathered(&self) -> u8
        ensures { result ≡ length (present self.now.sheet.acknowledged) }
    {
        self.gathered.len()
    }

    fn choice(&self) -> Option<FastChoice>
        ensures { result ≡ choice_where_full self.now.shape self.now.sheet }
    {
        if self.gathered() != self.topology.fast_size() {
            return None;
        }
        Some(self.gathered.choice(&self.topology))
    }
}
