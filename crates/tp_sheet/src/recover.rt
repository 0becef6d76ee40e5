ghost use Rattle.std.specs.Prelude.{◌≡◌, ◌≤◌, ◌&&◌, true, is_none, is_some, length};
ghost use Rattle.std.specs.Option.{option_map};
ghost use Rattle.tp_base.specs.Lists.{Each};
ghost use Rattle.tp_base.specs.Tables.{kept_at};
ghost use Rattle.tp_rules.specs.Process.{has_next};
ghost use Rattle.tp_rules.specs.Sheet.{can_answer, made_of, stamp_of, stamp_told, trying, with_answer};
ghost use Rattle.tp_sheet.specs.SiteSheet.{answer_of, ballot_by, home_within, promise_by, choice_after_answer, recovery_where_full, with_answer_of, with_promise, with_sheet, with_try};
ghost use Rattle.tp_sheet.specs.View.{IsRanked};
ghost use Rattle.tp_topology.specs.Ballots.{next_ballot as next_ballot_of};

use crate::answers::{NO_ANSWER, gather};
use crate::sheet::Sheet;
use tp_base::{Made, Rank, STAMP_LIMIT, Stamp};
use tp_choice::{RecoveryAnswer, choose};
use tp_paxos::next_ballot;

impl Sheet {
    /// Agrees to a ballot above the one agreed to before, and gives what is told to its recovery: the
    /// stamp that was accepted, or else the one that was proposed.
    pub fn promise(&mut self, ballot: u64) -> Option<RecoveryAnswer>
        ensures answer { result ≡ promise_by ballot self.old }
        ensures promised { self.new ≡ with_promise ballot self.old }
    {
        if !self.acceptor.promise(ballot) {
            return None;
        }
        Some(self.told())
    }

    /// Tries the next ballot, without answers, where the command can be recovered, and gives it.
    pub fn recover(&mut self) -> Option<u64>
        ensures ballot { result ≡ ballot_by self.old }
        ensures tried { self.new ≡ with_try self.old }
    {
        if !self.can_recover() {
            return None;
        }
        let ballot = self.next_ballot();
        self.attempt(ballot);
        Some(ballot)
    }

    /// Takes a rank's answer at the ballot that is tried, and gives the choice where just a recovery
    /// quorum has answered with it. The choice is put to the vote at that ballot.
    pub fn answer(&mut self, answer: RecoveryAnswer, ballot: u64) -> Option<Stamp>
        ensures choice { option_map (λ t. t.0) result ≡ choice_after_answer answer ballot self.old }
        ensures taken { self.new ≡ with_answer_of answer ballot self.old }
    {
        if !(self.topology.has_rank(answer.rank) && self.can_answer(answer.rank, ballot)) {
            return None;
        }
        self.add_answer(answer);
        let choice = self.recovery();
        if let Some(stamp) = choice {
            self.put(ballot, stamp);
        }
        choice
    }

    fn told(&self) -> RecoveryAnswer
        ensures { result ≡ answer_of self.now }
    {
        RecoveryAnswer {
            rank: self.site.rank,
            stamp: self.stamp_told(),
            made: self.made(),
            accepted: self.acceptor.accepted_ballot,
        }
    }

    fn stamp_told(&self) -> Stamp
        ensures { result.0 ≡ stamp_told self.now.sheet }
    {
        if 0 < self.acceptor.accepted_ballot {
            return self.acceptor.accepted_stamp;
        }
        match self.proposal {
            None => Stamp(0),
            Some(proposed) => Stamp(proposed.stamp),
        }
    }

    fn made(&self) -> Made
        ensures { result ≡ made_of self.now.sheet.proposal }
    {
        match self.proposal {
            None => Made::Proposal,
            Some(proposed) => proposed.made,
        }
    }

    fn can_recover(&self) -> bool
        ensures { result ≡ (is_some self.now.sheet.command
            && is_none (stamp_of self.now.sheet self.now.site.partition.0) && has_next self.now.sheet) }
    {
        self.command.is_some()
            && !self.knows(self.site.partition)
            && self.acceptor.ballot < STAMP_LIMIT - 8
            && self.proposer.tried() < STAMP_LIMIT - 8
    }

    fn next_ballot(&self) -> u64
        requires { has_next self.now.sheet ≡ true }
        ensures { result
            ≡ next_ballot_of self.now.shape self.now.site.rank.0 self.now.sheet.ballot self.now.sheet.tried }
    {
        next_ballot(
            &self.topology,
            self.own_rank(),
            self.acceptor.ballot,
            self.proposer.tried(),
        )
    }

    fn attempt(&mut self, ballot: u64)
        ensures { self.new ≡ with_sheet (trying self.old.shape ballot self.old.sheet) self.old }
    {
        self.proposer.attempt(ballot);
        self.answers = [None; 7];
    }

    fn answers(&self) -> &[Option<RecoveryAnswer>]
        ensures table { result.now ≡ self.now.sheet.answers }
        ensures few { length result.now ≤ 7 }
        ensures ranks { Each (IsRanked self.now.shape.replicas) result.now }
    {
        &self.answers[..usize::from(self.topology.replicas())]
    }

    fn has_answered(&self, rank: Rank) -> bool
        ensures { result ≡ is_some (kept_at self.now.sheet.answers rank.0) }
    {
        if rank.0 == 0 {
            return false;
        }
        match self.answers().get(usize::from(rank.0) - 1) {
            Some(answer) => answer.is_some(),
            None => false,
        }
    }

    fn can_answer(&self, rank: Rank, ballot: u64) -> bool
        ensures { result ≡ can_answer self.now.site.partition.0 ballot rank.0 self.now.sheet }
    {
        !self.knows(self.site.partition)
            && 0 < ballot
            && self.proposer.tried() == ballot
            && !self.proposer.is_put_at(ballot)
            && !self.has_answered(rank)
    }

    fn add_answer(&mut self, answer: RecoveryAnswer)
        requires some { 1 ≤ answer.rank.0 }
        requires few { answer.rank.0 ≤ self.old.shape.replicas }
        ensures { self.new ≡ with_sheet (with_answer answer self.old.sheet) self.old }
    {
        self.answers[usize::from(answer.rank.0) - 1] = Some(answer);
    }

    /// The home of the command that is kept, where it is a rank of the shape.
    fn home(&self) -> Option<Rank>
        ensures { result ≡ home_within self.now.shape self.now.sheet.command }
    {
        match &self.command {
            None => None,
            Some(command) => {
                if self.topology.has_rank(command.home) {
                    Some(command.home)
                } else {
                    None
                }
            }
        }
    }

    /// What the answers lead to, where just a recovery quorum has answered.
    fn recovery(&self) -> Option<Stamp>
        ensures { option_map (λ t. t.0) result ≡ recovery_where_full self.now.shape self.now.sheet }
    {
        let mut gathered = [NO_ANSWER; 7];
        let count = gather(self.answers(), &mut gathered);
        if count != usize::from(self.topology.recovery_size()) {
            return None;
        }
        match self.home() {
            None => None,
            Some(home) => Some(choose(&self.topology, home, &gathered[..count])),
        }
    }
}
