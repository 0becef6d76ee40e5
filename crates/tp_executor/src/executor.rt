ghost use Rattle.std.specs.Prelude.{◌≡◌, ◌&&◌, ◌∷◌, ◌<◌, [], Some, true, false, IfOk, OnOk};
ghost use Rattle.tp_base.specs.Names.{same_name};
ghost use Rattle.tp_promise.specs.Books.{replicas_of};
ghost use Rattle.tp_promise.specs.Pages.{AreTold};
ghost use Rattle.tp_rules.specs.Acts.{ExecutorAt};
ghost use Rattle.tp_rules.specs.Addresses.{is_name_of, message, others_accessed};
ghost use Rattle.tp_rules.specs.Executor.{ExecutorState, committed_ids, enabled, enabled_of, is_undeclared, on_committed, on_declare, on_execute, on_inner, on_message, on_promises, on_stable};
ghost use Rattle.tp_topology.specs.Stability.{is_stable as is_stable_for};
ghost use Rattle.tp_wire.specs.Ranges.{IsExecutor, IsInRange, IsProcess};

use crate::declaration::declarations;
use crate::others::{awaited, is_alone};
use crate::why::Why;
use std::alloc::Global;
use tp_base::{ActorName, CommandId, Duplicate, Key, NoMemory, Pairs, Sequence, Site, Stamp};
use tp_mstable::Declared;
use tp_ops::{Answers, Command};
use tp_promise::Book;
use tp_queue::Queue;
use tp_rules::{Actor, Inner, Outputs, is_command_at, is_name_of};
use tp_stable::{is_stable, threshold};
use tp_store::Store;
use tp_topology::Topology;
use tp_wire::{Body, Message};

/// The executor of a site.
#[derive(Drop)]
pub struct Executor {
    alloc: Global,
    topology: Topology,
    site: Site,
    book: Book,
    queue: Queue,
    store: Store,
    declared: Declared,
    spent: bool,
    ghost ranks: { replicas_of book ≡ topology.replicas },
}

/// The answers of a partition's operations, to the command's session.
fn result_of(
    alloc: Global,
    site: Site,
    id: CommandId,
    answers: Answers,
) -> Result<Outputs, NoMemory>
    ensures { IfOk result (λ outputs. outputs ≡ message (ActorName.Executor site) (ActorName.Session id.session)
        (Body.MResult id site.partition answers) ∷ []) }
{
    let mut outputs = Sequence::from_vec(Vec::with_capacity(alloc, 1)?);
    outputs.add(Message {
        from: ActorName::Executor(site),
        to: ActorName::Session(id.session),
        body: Body::MResult {
            id,
            partition: site.partition,
            answers,
        },
    })?;
    Ok(outputs)
}

impl Executor {
    ghost use Rattle.tp_executor.specs.Answers.{IsAnswer, IsAnswerFor};
    ghost use Rattle.tp_executor.specs.States.{IsState, Stands, identity};

    /// An executor that was told nothing.
    pub fn new(alloc: Global, topology: &Topology, site: Site) -> Result<Executor, NoMemory>
        ensures identity { IfOk result (λ e. identity e ≡ ExecutorAt topology.now site) }
        ensures unspent { IfOk result (λ e. e.spent ≡ false) }
        ensures stands { IfOk result (λ e. Stands e []) }
    {
        Ok(Executor {
            alloc,
            topology: *topology,
            site,
            book: Book::new(alloc, topology)?,
            queue: Queue::new(alloc),
            store: Store::new(alloc),
            declared: Declared::new(alloc),
            spent: false,
        })
    }

    /// The committed command with the least key that is not executed, where the rules let it
    /// execute now, or why they don't.
    pub fn may_execute(&self) -> Result<CommandId, Why>
        ensures { (state : ExecutorState) → IsState self.now state
            → IsAnswer self.now.topology self.now.site state result }
    {
        match self.queue.head() {
            Some((key, command)) => self.answer_for(key, command),
            None => Err(Why::Nothing),
        }
    }

    /// The same of a command, as if it had the least key.
    fn answer_for(&self, key: Key, command: &Command) -> Result<CommandId, Why>
        ensures { (state : ExecutorState) → IsState self.now state
            → IsAnswerFor self.now.topology self.now.site state (record { key = key; command = command.now }) result }
    {
        let threshold = threshold(&self.book, &self.topology);
        if threshold < key.stamp.0 {
            return Err(Why::NotStable {
                stamp: key.stamp,
                threshold,
            });
        }
        self.answer_where_stable(key, command)
    }

    /// The same of a command whose stamp is stable.
    fn answer_where_stable(&self, key: Key, command: &Command) -> Result<CommandId, Why>
        ensures { (state : ExecutorState) → IsState self.now state
            → is_stable_for self.now.topology state.told (committed_ids state) key.stamp.0 ≡ true
            → IsAnswerFor self.now.topology self.now.site state (record { key = key; command = command.now }) result }
    {
        if self.is_undeclared(key.id, command) {
            return Err(Why::NotDeclared);
        }
        let p = self.site.partition;
        match awaited(&self.topology, p, &self.declared, key.id, command) {
            Some(q) => Err(Why::Waits(q)),
            None => Ok(key.id),
        }
    }

    /// Whether a command is on several partitions, and isn't declared here.
    fn is_undeclared(&self, id: CommandId, command: &Command) -> bool
        ensures { (state : ExecutorState) → IsState self.now state
            → result ≡ is_undeclared state id (others_accessed self.now.topology command.now self.now.site.partition.0) }
    {
        !self.declared.sent(id) && !is_alone(&self.topology, self.site.partition, command)
    }

    /// The step that the executor may make where this command has the least key.
    fn step_for(&self, key: Key, command: &Command) -> Option<Inner>
        ensures { (state : ExecutorState) → IsState self.now state
            → result ≡ enabled_of self.now.topology self.now.site state
            (Some (record { key = key; command = command.now })) }
    {
        if !is_stable(&self.book, &self.topology, key.stamp) {
            return None;
        }
        match self.answer_where_stable(key, command) {
            Ok(id) => Some(Inner::Execute(id)),
            Err(why) => match why {
                Why::NotDeclared => Some(Inner::Declare(key.id)),
                _ => None,
            },
        }
    }

    /// The step that the executor may make.
    fn step(&self) -> Option<Inner>
        ensures { (state : ExecutorState) → IsState self.now state
            → result ≡ enabled self.now.topology self.now.site state }
    {
        match self.queue.head() {
            Some((key, command)) => self.step_for(key, command),
            None => None,
        }
    }

    /// A process told of its promises.
    fn tell(&mut self, from: ActorName, lo: u64, hi: u64, pairs: &Pairs) -> Result<(), NoMemory>
        requires process { IsProcess from }
        requires from { is_name_of self.old.topology from ≡ true }
        requires some { lo < hi }
        requires attached { AreTold lo hi pairs.now }
        ensures identity { identity self.new ≡ identity self.old }
        ensures state { OnOk result ((state : ExecutorState) → IsState self.old state
            → IsState self.new (on_promises self.old.site from lo hi pairs.now state).0) }
    {
        match from {
            ActorName::Process(from) if from.partition == self.site.partition => {
                self.book.add(from.rank, lo, hi, pairs)
            }
            _ => Ok(()),
        }
    }

    fn commit(&mut self, command: &Command, stamp: Stamp) -> Result<(), NoMemory>
        ensures identity { identity self.new ≡ identity self.old }
        ensures state { OnOk result ((state : ExecutorState) → IsState self.old state
            → IsState self.new (on_committed command.now stamp.0 state).0) }
    {
        let key = Key {
            stamp,
            id: command.id,
        };
        if !self.queue.put(key, command.copy()?)? {
            return Ok(());
        }
        self.book.committed(key.id)
    }

    /// An executor declared a command.
    fn hear(&mut self, from: ActorName, id: CommandId) -> Result<(), NoMemory>
        requires executor { IsExecutor from }
        ensures identity { identity self.new ≡ identity self.old }
        ensures state { OnOk result ((state : ExecutorState) → IsState self.old state
            → IsState self.new (on_stable self.old.site from id state).0) }
    {
        match from {
            ActorName::Executor(from) if from.partition != self.site.partition => {
                self.declared.heard(id, from.partition)
            }
            _ => Ok(()),
        }
    }

    /// Whether a message is to this executor, and from an actor of the store's shape.
    fn is_mine(&self, message: &Message) -> bool
        ensures { result ≡ (same_name message.now.to (ActorName.Executor self.now.site)
            && is_name_of self.now.topology message.now.from) }
    {
        message.to == ActorName::Executor(self.site) && is_name_of(&self.topology, message.from)
    }

    fn take(&mut self, message: &Message) -> Result<(), NoMemory>
        requires { IsInRange message.now }
        ensures identity { identity self.new ≡ identity self.old }
        ensures state { OnOk result ((state : ExecutorState) → IsState self.old state
            → IsState self.new (on_message self.old.topology self.old.site message.now state).0) }
    {
        if !self.is_mine(message) {
            return Ok(());
        }
        match &message.body {
            Body::MPromises { lo, hi, pairs } => self.tell(message.from, *lo, *hi, pairs),
            Body::MCommitted { command, stamp } => {
                if is_command_at(&self.topology, self.site.partition, command) {
                    return self.commit(command, *stamp);
                }
                Ok(())
            }
            Body::MStable { id } => self.hear(message.from, *id),
            _ => Ok(()),
        }
    }

    /// Declares the command with the least key of those that wait.
    fn declare(&mut self) -> Result<Outputs, NoMemory>
        ensures identity { identity self.new ≡ identity self.old }
        ensures outputs { IfOk result (λ outputs. (state : ExecutorState) → IsState self.old state
            → outputs ≡ (on_declare self.old.topology self.old.site state).1) }
        ensures state { OnOk result ((state : ExecutorState) → IsState self.old state
            → IsState self.new (on_declare self.old.topology self.old.site state).0) }
    {
        let Some((_, command)) = self.queue.head() else {
            return Ok(Sequence::new(self.alloc));
        };
        let id = command.id;
        let outputs = declarations(self.alloc, &self.topology, self.site, command)?;
        self.declared.send(id)?;
        Ok(outputs)
    }

    /// Executes the command with the least key of those that wait.
    fn execute(&mut self) -> Result<Outputs, NoMemory>
        ensures identity { identity self.new ≡ identity self.old }
        ensures outputs { IfOk result (λ outputs. (state : ExecutorState) → IsState self.old state
            → outputs ≡ (on_execute self.old.topology self.old.site state).1) }
        ensures state { OnOk result ((state : ExecutorState) → IsState self.old state
            → IsState self.new (on_execute self.old.topology self.old.site state).0) }
    {
        let Some((_, command)) = self.queue.pop() else {
            return Ok(Sequence::new(self.alloc));
        };
        let partitions = self.topology.partitions();
        let answers = self.store.apply(&command, partitions, self.site.partition)?;
        result_of(self.alloc, self.site, command.id, answers)
    }

    /// Makes a step of its own.
    fn make(&mut self, inner: Inner) -> Result<Outputs, NoMemory>
        ensures identity { identity self.new ≡ identity self.old }
        ensures outputs { IfOk result (λ outputs. (state : ExecutorState) → IsState self.old state
            → outputs ≡ (on_inner self.old.topology self.old.site inner state).1) }
        ensures state { OnOk result ((state : ExecutorState) → IsState self.old state
            → IsState self.new (on_inner self.old.topology self.old.site inner state).0) }
    {
        match inner {
            Inner::Declare(_) => self.declare(),
            Inner::Execute(_) => self.execute(),
            _ => Ok(Sequence::new(self.alloc)),
        }
    }
}

impl Actor for Executor {
    ghost use Rattle.tp_executor.specs.States.{Stands, identity};

    ghost identity_of = { identity };

    ghost is_spent = { λ e. e.spent };

    ghost stands = { Stands };

    fn name(&self) -> ActorName {
        ActorName::Executor(self.site)
    }

    fn spent(&self) -> bool {
        self.spent
    }

    fn deliver(&mut self, message: &Message) -> Result<Outputs, NoMemory> {
        let taken = self.take(message);
        self.spent = taken.is_err();
        taken?;
        Ok(Sequence::new(self.alloc))
    }

    fn fire(&mut self, inner: Inner) -> Result<Outputs, NoMemory> {
        let outputs = self.make(inner);
        self.spent = outputs.is_err();
        outputs
    }

    fn next_inner(&self) -> Option<Inner> {
        self.step()
    }
}
