ghost use Rattle.std.specs.Prelude.{◌≡◌, ◌≤◌, is_none, map, take};
ghost use Rattle.std.specs.Option.{option_map};
ghost use Rattle.tp_base.specs.Tables.{kept_at};
ghost use Rattle.tp_rules.specs.Addresses.{accessed};
ghost use Rattle.tp_rules.specs.Sheet.{greatest_known as greatest_of_known, stamp_of};
ghost use Rattle.tp_sheet.specs.SiteSheet.{final_after_learning, final_of, with_known};

use crate::sheet::Sheet;
use tp_base::{PartitionId, Stamp};
use tp_ops::{Command, accesses};
use tp_quorum::Known;
use tp_topology::Topology;

impl Sheet {
    /// The command's final stamp, where the stamps of all its partitions are known.
    pub fn final_stamp(&self) -> Option<Stamp>
        ensures { option_map (λ t. t.0) result ≡ final_of self.now }
    {
        match &self.command {
            None => None,
            Some(command) => greatest_known(command, &self.topology, &self.known),
        }
    }

    /// Learns the stamp of a partition where it is not known, and gives the final stamp where those
    /// of all the command's partitions are known with it.
    pub fn learn(&mut self, partition: PartitionId, stamp: Stamp) -> Option<Stamp>
        ensures last { option_map (λ t. t.0) result ≡ final_after_learning partition.0 stamp.0 self.old }
        ensures known { self.new ≡ with_known partition.0 stamp.0 self.old }
    {
        if !self.add_stamp(partition, stamp) {
            return None;
        }
        self.final_stamp()
    }

    /// Keeps the stamp of a partition, and tells whether none was known of it.
    fn add_stamp(&mut self, partition: PartitionId, stamp: Stamp) -> bool
        ensures new { result ≡ is_none (stamp_of self.old.sheet partition.0) }
        ensures known { self.new ≡ with_known partition.0 stamp.0 self.old }
    {
        if !self.topology.has_partition(partition) {
            return true;
        }
        self.known.put(partition, stamp)
    }
}

/// The greatest of the stamps of a command's partitions, where each is known.
fn greatest_known(command: &Command, topology: &Topology, known: &Known) -> Option<Stamp>
    ensures { option_map (λ t. t.0) result ≡ greatest_of_known
        (map (λ q. kept_at (take topology.now.partitions known.now) q) (accessed topology.now command.now)) }
{
    let mut greatest = 0;
    for partition in 1..topology.partitions() + 1 {
        if accesses(command, topology.partitions(), PartitionId(partition)) {
            let stamp = known.get(PartitionId(partition))?;
            if greatest < stamp.0 {
                greatest = stamp.0;
            }
        }
    }
    Some(Stamp(greatest))
}
