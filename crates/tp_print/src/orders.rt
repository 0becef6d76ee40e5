ghost use Rattle.std.specs.Prelude.{◌≡◌, ◌++◌, ◌∷◌, codes, map, List, OnOk};
ghost use Rattle.std.specs.List.{flat_map};
ghost use Rattle.tp_print.specs.Recorded.{AreRecorded, recorded_words};
ghost use Rattle.tp_rules.specs.declared.event.Entry.{Entry};
ghost use Rattle.tp_print.specs.Report.{crashed_words, order_line, spaced, text_line};
ghost use Rattle.tp_rules.specs.Addresses.{site};
ghost use Rattle.tp_text.specs.Names.{site_word};
ghost use Rattle.tp_topology.specs.Counting.{up_to};

use crate::site::SiteRecord;
use crate::sites::Sites;
use crate::words::{put_spaced_site, put_stamped};
use std::alloc::Global;
use tp_base::{NoMemory, PartitionId, Put, Rank, Site};
use tp_topology::Topology;

fn put_executed(out: &mut Put, noted: &SiteRecord) -> Result<(), NoMemory>
    ensures { OnOk result (out.new ≡ out.old ++ flat_map spaced (recorded_words noted.now)) }
{
    for id in noted.executed.as_slice() {
        let stamp = noted.stamps.get(id).copied().unwrap_or(0);
        put_stamped(out, *id, stamp)?;
    }
    Ok(())
}

fn put_crashed(out: &mut Put, crashed: bool) -> Result<(), NoMemory>
    ensures { OnOk result (out.new ≡ out.old ++ flat_map spaced (crashed_words crashed)) }
{
    if crashed {
        out.bytes(b" crashed")?;
    }
    Ok(())
}

fn put_record(out: &mut Put, site: Site, noted: &SiteRecord) -> Result<(), NoMemory>
    ensures { OnOk result (out.new ≡ out.old ++ text_line (codes "order")
        (site_word site ∷ recorded_words noted.now ++ crashed_words noted.now.crashed)) }
{
    out.bytes(b"order")?;
    put_spaced_site(out, site)?;
    put_executed(out, noted)?;
    put_crashed(out, noted.crashed)?;
    out.byte(b'\n')
}

/// The line of one site.
fn put_order(alloc: Global, out: &mut Put, sites: &Sites, site: Site) -> Result<(), NoMemory>
    ensures { OnOk result ((older : List Entry) → AreRecorded older sites.now
        → out.new ≡ out.old ++ order_line older site) }
{
    let none = SiteRecord::new(alloc);
    let noted = sites.get(&site).unwrap_or(&none);
    put_record(out, site, noted)?;
    Ok(())
}

/// The lines of a partition's sites.
fn put_partition(
    alloc: Global,
    out: &mut Put,
    topology: &Topology,
    sites: &Sites,
    partition: PartitionId,
) -> Result<(), NoMemory>
    ensures { OnOk result ((older : List Entry) → AreRecorded older sites.now
        → out.new ≡ out.old ++ flat_map (λ k. order_line older (site partition.0 k)) (up_to topology.now.replicas)) }
{
    for i in 0..topology.replicas() {
        let site = Site {
            partition,
            rank: Rank(i + 1),
        };
        put_order(alloc, out, sites, site)?;
    }
    Ok(())
}

/// The lines of all sites.
pub fn put_orders(
    alloc: Global,
    out: &mut Put,
    topology: &Topology,
    sites: &Sites,
) -> Result<(), NoMemory>
    ensures { OnOk result ((older : List Entry) → AreRecorded older sites.now
        → out.new ≡ out.old ++ flat_map
        (λ p. flat_map (λ k. order_line older (site p k)) (up_to topology.now.replicas))
        (up_to topology.now.partitions)) }
{
    for i in 0..topology.partitions() {
        put_partition(alloc, out, topology, sites, PartitionId(i + 1))?;
    }
    Ok(())
}
