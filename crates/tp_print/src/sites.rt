ghost use Rattle.indexmap.specs.IndexMap.{get};
ghost use Rattle.std.specs.Prelude.{◌≡◌, ◌∷◌, List, is_some, true, false, OnOk};
ghost use Rattle.tp_base.specs.Names.{same_site};
ghost use Rattle.tp_base.specs.declared.names.Site.{Site};
ghost use Rattle.tp_print.specs.Recorded.{AreRecorded, IsKept};
ghost use Rattle.tp_rules.specs.declared.event.Entry.{Entry};

use crate::site::SiteRecord;
use indexmap::IndexMap;
use std::alloc::Global;
use tp_base::{ActorName, NoMemory, Site};
use tp_rules::Entry;

/// What each site did.
pub type Sites = IndexMap<Site, SiteRecord>;

/// Makes a record of a site, where it has none.
fn open(alloc: Global, sites: &mut Sites, site: Site) -> Result<(), NoMemory>
    ensures here { OnOk result (is_some (get same_site sites.new site) ≡ true) }
    ensures others { OnOk result ((other : Site) → same_site site other ≡ false
        → get same_site sites.new other ≡ get same_site sites.old other) }
    ensures recorded { OnOk result ((older : List Entry) → AreRecorded older sites.old → AreRecorded older sites.new) }
{
    if !sites.contains_key(&site) {
        sites.insert(site, SiteRecord::new(alloc))?;
    }
    Ok(())
}

/// Goes on with an entry in the record of a site.
fn note_at(alloc: Global, sites: &mut Sites, site: Site, entry: &Entry) -> Result<(), NoMemory>
    ensures here { OnOk result ((older : List Entry) → AreRecorded older sites.old
        → IsKept (entry.now ∷ older) site (get same_site sites.new site)) }
    ensures others { OnOk result ((other : Site) → same_site site other ≡ false
        → get same_site sites.new other ≡ get same_site sites.old other) }
{
    open(alloc, sites, site)?;
    if let Some(record) = sites.get_mut(&site) {
        record.note(site, entry)?;
    }
    Ok(())
}

/// Goes on with the next entry.
pub fn note_site(alloc: Global, sites: &mut Sites, entry: &Entry) -> Result<(), NoMemory>
    ensures { OnOk result ((older : List Entry) → AreRecorded older sites.old
        → AreRecorded (entry.now ∷ older) sites.new) }
{
    match entry.actor {
        ActorName::Process(site) | ActorName::Executor(site) => {
            note_at(alloc, sites, site, entry)?;
            Ok(())
        }
        ActorName::Session(_) => Ok(()),
    }
}
