ghost use Rattle.std.specs.Prelude.{◌≤◌};

use crate::cue::{Cue, ID, message_of, put_b, put_both};
use crate::telling::{add, text_of};
use std::alloc::Global;
use std::process::Abort;
use std::test::Fail;
use tp_base::{NoMemory, PartitionId, Rank, Sequence, Site, Stamp};
use tp_ops::Command;
use tp_process::Process;
use tp_rules::{Actor, Inner, Outputs};
use tp_topology::Topology;

/// A process of the first partition, and the command that its story is about.
#[derive(Drop)]
pub(crate) struct Stage {
    alloc: Global,
    site: Site,
    command: Command,
    pub(crate) process: Process,
}

impl Stage {
    /// The process of a rank that has taken no message.
    pub(crate) fn new(alloc: Global, topology: &Topology, rank: u8, command: Command) -> Stage
        requires some { 1 ≤ rank }
        requires few { rank ≤ topology.now.replicas }
    {
        let partitions = topology.partitions();
        prove!(1 <= partitions);
        let site = Site {
            partition: PartitionId(1),
            rank: Rank(rank),
        };
        Stage {
            alloc,
            site,
            command,
            process: Process::new(alloc, topology, site),
        }
    }

    /// Tells a story: after each cue this is to be seen of the process.
    pub(crate) fn tell(&mut self, rt: &impl Abort, story: &[(Cue, &str)]) -> Result<(), Fail> {
        for (cue, expected) in story {
            let seen = self.take(*cue)?;
            assert_eq!(rt; seen.as_str(), *expected, "at {cue:?}");
        }
        assert!(rt; !self.process.spent());
        Ok(())
    }

    /// What is seen of the process at a cue: what it sends, and its clock and the command's final
    /// stamp where they are others than before.
    fn take(&mut self, cue: Cue) -> Result<String, NoMemory> {
        let (clock, stamp) = (self.process.clock(), self.process.stamp(ID));
        let outputs = self.play(cue)?;
        let mut seen = text_of(self.alloc, &outputs)?;
        self.add_clock(&mut seen, clock)?;
        self.add_stamp(&mut seen, stamp)?;
        Ok(seen)
    }

    fn add_clock(&self, seen: &mut String, before: u64) -> Result<(), NoMemory> {
        let clock = self.process.clock();
        if clock != before {
            add(seen, &format!(in self.alloc; "clock {clock}")?)?;
        }
        Ok(())
    }

    fn add_stamp(&self, seen: &mut String, before: Option<Stamp>) -> Result<(), NoMemory> {
        let stamp = self.process.stamp(ID);
        if stamp != before {
            match stamp {
                Some(stamp) => add(seen, &format!(in self.alloc; "stamp {}", stamp.0)?)?,
                None => add(seen, "no stamp")?,
            }
        }
        Ok(())
    }

    fn play(&mut self, cue: Cue) -> Result<Outputs, NoMemory> {
        if let Some(message) = message_of(cue, self.site, &self.command)? {
            return self.process.deliver(&message);
        }
        match cue {
            Cue::Recover => self.process.fire(Inner::Recover(ID)),
            Cue::Announce => self.announce(),
            _ => self.process.fire(Inner::Crash),
        }
    }

    fn announce(&mut self) -> Result<Outputs, NoMemory> {
        match self.process.next_inner() {
            Some(inner) => self.process.fire(inner),
            None => Ok(Sequence::new(self.alloc)),
        }
    }
}

/// A process of three replicas, of which one may fail, in one partition.
pub(crate) fn of_three(alloc: Global, rank: u8) -> Result<Stage, Fail>
    requires some { 1 ≤ rank }
    requires few { rank ≤ 3 }
{
    let topology = Topology::new(1, 3, 1)?;
    Ok(Stage::new(alloc, &topology, rank, put_b(alloc)?))
}

/// A process of five replicas, of which two may fail, in the first of two partitions. The command
/// is on this one alone.
pub(crate) fn of_five(alloc: Global, rank: u8) -> Result<Stage, Fail>
    requires some { 1 ≤ rank }
    requires few { rank ≤ 5 }
{
    let topology = Topology::new(2, 5, 2)?;
    Ok(Stage::new(alloc, &topology, rank, put_b(alloc)?))
}

/// A process of three replicas in the first of two partitions. The command is on both.
pub(crate) fn of_two_partitions(alloc: Global, rank: u8) -> Result<Stage, Fail>
    requires some { 1 ≤ rank }
    requires few { rank ≤ 3 }
{
    let topology = Topology::new(2, 3, 1)?;
    Ok(Stage::new(alloc, &topology, rank, put_both(alloc)?))
}
