ghost use Rattle.std.specs.Prelude.{◌≡◌, ◌≤◌, None, cond};
ghost use Rattle.std.specs.Option.{option_map};
ghost use Rattle.tp_paxos.specs.Votes.{is_put_at};
ghost use Rattle.tp_rules.specs.Sheet.{can_accept, stamp_decided, with_vote};
ghost use Rattle.tp_sheet.specs.SiteSheet.{decision_after_vote, with_acceptance, with_sheet, with_vote_of};

use crate::sheet::Sheet;
use tp_base::{Rank, Stamp};

impl Sheet {
    /// Accepts a stamp at a ballot, which is agreed to with it, where the site's partition has no
    /// stamp yet and no greater ballot was agreed to, and tells whether it did.
    pub fn accept(&mut self, stamp: Stamp, ballot: u64) -> bool
        ensures accepts { result ≡ can_accept self.old.site.partition.0 ballot self.old.sheet }
        ensures accepted { self.new ≡ with_acceptance stamp.0 ballot self.old }
    {
        !self.knows(self.site.partition) && self.acceptor.accept(ballot, stamp)
    }

    /// Takes a rank's vote at a ballot, and gives the stamp that is put there where a consensus
    /// quorum has voted with it.
    pub fn vote(&mut self, rank: Rank, ballot: u64) -> Option<Stamp>
        ensures decision { option_map (λ t. t.0) result ≡ decision_after_vote rank.0 ballot self.old }
        ensures taken { self.new ≡ with_vote_of rank.0 ballot self.old }
    {
        if !self.topology.has_rank(rank) || self.knows(self.site.partition) {
            return None;
        }
        self.count_vote(rank, ballot)
    }

    /// Takes a rank's vote where it is at the ballot that is put, and gives what it decides.
    fn count_vote(&mut self, rank: Rank, ballot: u64) -> Option<Stamp>
        requires some { 1 ≤ rank.0 }
        requires few { rank.0 ≤ self.old.shape.replicas }
        ensures decides { option_map (λ t. t.0) result
            ≡ cond (is_put_at ballot self.old.sheet.put)
            (stamp_decided self.old.shape (with_vote rank.0 self.old.sheet)) None }
        ensures counted { self.new ≡ with_sheet (cond (is_put_at ballot self.old.sheet.put)
            (with_vote rank.0 self.old.sheet) self.old.sheet) self.old }
    {
        self.proposer.vote(rank, ballot)
    }
}
