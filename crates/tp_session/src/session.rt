ghost use Rattle.std.specs.Prelude.{List, ◌≡◌, ◌<◌, ◌≤◌, ◌^◌, ◌+◌, ◌-◌, ◌∷◌, ◌++◌, ◌==◌, ◌&&◌, [], Some, None, cond, false, nat_le, length, replicate, slice_set, vec_len, IfOk, OnOk, OnErr};
ghost use Rattle.std.specs.Option.{option_copied};
ghost use Rattle.tp_base.specs.Tables.{kept_at, nth, with_nth};
ghost use Rattle.tp_rules.specs.Session.{SessionState, is_awaited, is_whole, on_message, on_result, on_submit, submissions, reply, state_after};
ghost use Rattle.tp_wire.specs.Ranges.{IsInRange};

use crate::answered::{is_awaited, is_whole, reply_of};
use crate::submissions::submissions;
use std::alloc::Global;
use tp_base::{ActorName, CommandId, Duplicate, NoMemory, PartitionId, Rank, Sequence, SessionId};
use tp_ops::{Answers, Command, Parts};
use tp_rules::{Actor, Inner, Outputs};
use tp_script::Commands;
use tp_topology::Topology;
use tp_wire::{Body, Message};

/// A client session, with its own commands in order. It submits its next command while fewer than
/// its window of them are unanswered.
#[derive(Debug, Drop)]
pub struct Session {
    alloc: Global,
    id: SessionId,
    home: Rank,
    topology: Topology,
    window: usize,
    commands: Commands,
    kept: Vec<Parts>,
    unanswered: usize,
    spent: bool,
    ghost numbered: { length commands < 2 ^ 32 },
    ghost counted: { unanswered ≤ vec_len kept },
}

impl Session {
    ghost use Rattle.tp_rules.specs.Acts.{Act, SessionOf};
    ghost use Rattle.tp_session.specs.States.{IsState, Stands, client, identity, parts_at, table};

    /// A session with its own commands in order, that has submitted none. It takes no memory.
    pub fn new(
        alloc: Global,
        id: SessionId,
        home: Rank,
        topology: &Topology,
        commands: Commands,
    ) -> Session
        requires few { length commands < 2 ^ 32 }
        ensures identity { identity result ≡ SessionOf topology.now
            (record { session = id; home = home.0; window = 1; commands = commands }) }
        ensures unspent { result.spent ≡ false }
        ensures stands { Stands result [] }
    {
        let partitions = topology.partitions();
        prove!(partitions <= 4);
        Session {
            alloc,
            id,
            home,
            topology: *topology,
            window: 1,
            commands,
            kept: Vec::new(alloc),
            unanswered: 0,
            spent: false,
        }
    }

    /// The reply to the command with this number, None where it is not answered.
    pub fn reply(&self, n: u32) -> Result<Option<Answers>, NoMemory>
        ensures { IfOk result (λ answers. (acts : List Act) → Stands self.now acts
            → answers ≡ reply self.now.topology (client self.now)
            (state_after self.now.topology (client self.now) acts) n) }
    {
        let Some(command) = self.command(n) else {
            return Ok(None);
        };
        match self.parts(n) {
            Some(parts) => reply_of(self.alloc, &self.topology, command, parts),
            None => reply_of(self.alloc, &self.topology, command, &Parts::new()),
        }
    }

    fn command(&self, n: u32) -> Option<&Command>
        ensures { option_copied result ≡ nth self.now.commands n }
    {
        if n == 0 {
            return None;
        }
        self.commands.get(n as usize - 1)
    }

    fn parts(&self, n: u32) -> Option<&Parts>
        ensures { option_copied result ≡ nth self.now.kept.items n }
    {
        if n == 0 {
            return None;
        }
        self.kept.get(n as usize - 1)
    }

    fn is_answered(&self, n: u32) -> bool
        ensures { result ≡ is_whole self.now.topology (table self.now n) (nth self.now.commands n) }
    {
        match (self.command(n), self.parts(n)) {
            (Some(command), Some(parts)) => is_whole(&self.topology, parts, command),
            (Some(command), None) => is_whole(&self.topology, &Parts::new(), command),
            _ => false,
        }
    }

    /// One more command is submitted.
    fn open(&mut self, n: u32) -> Result<(), NoMemory>
        ensures identity { OnOk result (identity self.new ≡ identity self.old) }
        ensures kept { OnOk result (self.new.kept.items ≡ self.old.kept.items ++ replicate 4 None ∷ []) }
        ensures unanswered { OnOk result (self.new.unanswered
            ≡ cond (is_whole self.old.topology (table self.new n) (nth self.old.commands n)) self.old.unanswered
            (self.old.unanswered + 1)) }
        ensures same { OnErr result (identity self.new ≡ identity self.old) }
    {
        self.kept.push(Parts::new())?;
        if !self.is_answered(n) {
            self.unanswered += 1;
        }
        Ok(())
    }

    fn submit(&mut self, n: u32) -> Result<Outputs, NoMemory>
        ensures identity { identity self.new ≡ identity self.old }
        ensures outputs { IfOk result (λ outputs. outputs
            ≡ submissions self.old.topology (client self.old) (nth self.old.commands n)) }
        ensures state { OnOk result ((state : SessionState) → IsState self.old state → n ≡ state.submitted + 1
            → IsState self.new (on_submit self.old.topology (client self.old) n state).0) }
    {
        let outputs = match self.command(n) {
            Some(command) => {
                submissions(self.alloc, &self.topology, self.id, self.home, command)?
            }
            None => Sequence::new(self.alloc),
        };
        self.open(n)?;
        Ok(outputs)
    }

    fn awaits(&self, id: CommandId, q: PartitionId, answers: &Answers) -> bool
        requires from { 1 ≤ q.0 }
        requires to { q.0 ≤ self.now.topology.partitions }
        ensures { result ≡ ((id.session.0 == self.now.id.0) && nat_le id.number (length self.now.kept.items)
            && is_awaited self.now.topology q.0 answers.now (table self.now id.number)
            (nth self.now.commands id.number)) }
    {
        if id.session != self.id {
            return false;
        }
        match (self.command(id.number), self.parts(id.number)) {
            (Some(command), Some(parts)) => is_awaited(&self.topology, q, answers, parts, command),
            _ => false,
        }
    }

    /// Keeps the answers of a partition, that are the first.
    fn keep(&mut self, n: u32, q: PartitionId, answers: Answers)
        requires low { 1 ≤ n }
        requires high { n ≤ length self.old.kept.items }
        requires from { 1 ≤ q.0 }
        requires to { q.0 ≤ 4 }
        requires first { kept_at (parts_at self.old.kept.items n) q.0 ≡ None }
        ensures identity { identity self.new ≡ identity self.old }
        ensures kept { self.new.kept.items ≡ slice_set self.old.kept.items (n - 1)
            (with_nth (parts_at self.old.kept.items n) q.0 (Some answers)) }
        ensures unanswered { self.new.unanswered ≡ cond
            (is_whole self.old.topology (table self.new n) (nth self.old.commands n))
            (self.old.unanswered - 1) self.old.unanswered }
    {
        self.kept[n as usize - 1].put(q, answers);
        if self.is_answered(n) {
            self.unanswered = self.unanswered.saturating_sub(1);
        }
    }

    fn receive(&mut self, id: CommandId, q: PartitionId, answers: &Answers) -> Result<(), NoMemory>
        requires from { 1 ≤ q.0 }
        requires to { q.0 ≤ self.old.topology.partitions }
        requires few { q.0 ≤ 4 }
        ensures identity { identity self.new ≡ identity self.old }
        ensures state { OnOk result ((state : SessionState) → IsState self.old state
            → IsState self.new (on_result self.old.topology (client self.old) id q.0 answers.now state).0) }
    {
        if self.awaits(id, q, answers) {
            let answers = answers.copy()?;
            self.keep(id.number, q, answers);
        }
        Ok(())
    }

    fn take(&mut self, message: &Message) -> Result<(), NoMemory>
        ensures identity { identity self.new ≡ identity self.old }
        ensures state { OnOk result ((state : SessionState) → IsState self.old state → IsInRange message.now
            → IsState self.new (on_message self.old.topology (client self.old) message.now state).0) }
    {
        if message.to != ActorName::Session(self.id) {
            return Ok(());
        }
        let ActorName::Executor(from) = message.from else {
            return Ok(());
        };
        if !self.topology.has_site(from) {
            return Ok(());
        }
        let Body::MResult {
            id,
            partition,
            answers,
        } = &message.body
        else {
            return Ok(());
        };
        if 1 <= partition.0 && partition.0 <= self.topology.partitions() {
            return self.receive(*id, *partition, answers);
        }
        Ok(())
    }
}

impl Actor for Session {
    ghost use Rattle.tp_session.specs.States.{Stands, identity};

    ghost identity_of = { identity };

    ghost is_spent = { λ s. s.spent };

    ghost stands = { Stands };

    fn name(&self) -> ActorName {
        ActorName::Session(self.id)
    }

    fn spent(&self) -> bool {
        self.spent
    }

    fn deliver(&mut self, message: &Message) -> Result<Outputs, NoMemory> {
        let taken = self.take(message);
        self.spent = taken.is_err();
        taken?;
        Ok(Sequence::new(self.alloc))
    }

    fn fire(&mut self, inner: Inner) -> Result<Outputs, NoMemory> {
        match inner {
            Inner::Submit(n) => {
                let outputs = self.submit(n);
                self.spent = outputs.is_err();
                outputs
            }
            _ => Ok(Sequence::new(self.alloc)),
        }
    }

    fn next_inner(&self) -> Option<Inner> {
        let submitted = self.kept.len();
        if submitted < self.commands.len() && self.unanswered < self.window {
            return Some(Inner::Submit(submitted as u32 + 1));
        }
        None
    }
}
