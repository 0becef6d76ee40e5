ghost use Rattle.std.specs.Prelude.{◌≡◌, ◌++◌, [], ◌∷◌, codes, length, List, OnOk};
ghost use Rattle.std.specs.Fmt.{decimal};
ghost use Rattle.std.specs.List.{flat_map};
ghost use Rattle.tp_print.specs.Recorded.{AreRecorded};
ghost use Rattle.tp_print.specs.Report.{text_line};
ghost use Rattle.tp_print.specs.Summary.{executed_line};
ghost use Rattle.tp_rules.specs.Addresses.{site};
ghost use Rattle.tp_rules.specs.Outcome.{executions};
ghost use Rattle.tp_rules.specs.declared.event.Entry.{Entry};
ghost use Rattle.tp_text.specs.Names.{site_word};
ghost use Rattle.tp_topology.specs.Counting.{up_to};

use crate::site::SiteRecord;
use crate::sites::Sites;
use crate::words::{put_count, put_spaced_site};
use std::alloc::Global;
use tp_base::{NoMemory, PartitionId, Put, Rank, Site};
use tp_topology::Topology;

/// How many commands a site executed.
fn executed_count(alloc: Global, sites: &Sites, site: Site) -> usize
    ensures { (older : List Entry) → AreRecorded older sites.now → result ≡ length (executions older site) }
{
    let none = SiteRecord::new(alloc);
    let noted = sites.get(&site).unwrap_or(&none);
    noted.executed.as_slice().len()
}

fn put_site_count(out: &mut Put, site: Site, executed: u64) -> Result<(), NoMemory>
    ensures { OnOk result (out.new ≡ out.old ++ text_line (codes "executed")
        (site_word site ∷ decimal executed ∷ [])) }
{
    out.bytes(b"executed")?;
    put_spaced_site(out, site)?;
    put_count(out, executed)?;
    out.byte(b'\n')
}

/// The counts of a partition's sites.
fn put_partition_counts(
    alloc: Global,
    out: &mut Put,
    topology: &Topology,
    sites: &Sites,
    partition: PartitionId,
) -> Result<(), NoMemory>
    ensures { OnOk result ((older : List Entry) → AreRecorded older sites.now
        → out.new ≡ out.old ++ flat_map (λ k. executed_line older (site partition.0 k)) (up_to topology.now.replicas)) }
{
    for i in 0..topology.replicas() {
        let site = Site {
            partition,
            rank: Rank(i + 1),
        };
        let executed = executed_count(alloc, sites, site);
        put_site_count(out, site, executed as u64)?;
    }
    Ok(())
}

/// The counts of all sites.
pub fn put_site_counts(
    alloc: Global,
    out: &mut Put,
    topology: &Topology,
    sites: &Sites,
) -> Result<(), NoMemory>
    ensures { OnOk result ((older : List Entry) → AreRecorded older sites.now
        → out.new ≡ out.old ++ flat_map
        (λ p. flat_map (λ k. executed_line older (site p k)) (up_to topology.now.replicas))
        (up_to topology.now.partitions)) }
{
    for i in 0..topology.partitions() {
        put_partition_counts(alloc, out, topology, sites, PartitionId(i + 1))?;
    }
    Ok(())
}
