ghost use Rattle.std.specs.Prelude.{◌≡◌, ◌≤◌, ◌<◌, ◌+◌, ◌^◌, cond, is_some, length, map, position, option_map, IfOk, IfSome, None, ◌⊎◌};
ghost use Rattle.tp_base.specs.Names.{same_name};
ghost use Rattle.tp_picture.specs.Scenes.{column, place, row_end, row_where, scene_of, shown, site_end, spot, width};
ghost use Rattle.tp_script.specs.Accepted.{IsAccepted};
ghost use Rattle.tp_topology.specs.Counting.{up_to};

use crate::about::is_chosen_entry;
use crate::place::Place;
use crate::rows::rows_of;
use crate::view::View;
use std::alloc::Global;
use std::marker::Model;
use tp_base::{ActorName, NoMemory, Sequence, Site};
use tp_journal::Journal;
use tp_rules::Entry;
use tp_script::Script;

/// The row of an entry, if it is shown, and how many are shown before it.
#[derive(Clone, Copy, Debug, PartialEq, Eq)]
pub(crate) struct Spot {
    pub column: usize,
    pub row: Option<usize>,
}

/// The spots of a journal's entries, and how many of these are shown.
#[derive(Drop)]
pub(crate) struct Spots {
    pub spots: Sequence<Spot>,
    pub width: usize,
}

/// A journal, and what of it is drawn. The spots of its entries are kept.
#[derive(Drop)]
pub(crate) struct Scene<'a> {
    journal: &'a Journal,
    view: &'a View,
    rows: Vec<ActorName>,
    spots: Spots,
}

impl<'a> Model for Scene<'a> {
    ghost use Rattle.std.specs.Prelude.{◌≡◌, length, map};
    ghost use Rattle.tp_picture.specs.Scenes.{Scene as Drawn, shown, spot};
    ghost use Rattle.tp_topology.specs.Counting.{up_to};

    ghost Value = { Drawn };

    ghost view = { λ s. record { journal = s.journal.now; view = s.view.now; rows = s.rows.items } };

    ghost invariant = { λ s.
        (s.spots.spots ≡ map (spot (record { journal = s.journal.now; view = s.view.now; rows = s.rows.items })) (up_to (length s.journal.now)))
        × (s.spots.width ≡ shown (record { journal = s.journal.now; view = s.view.now; rows = s.rows.items }) (length s.journal.now)) };
}

fn is_of(actor: ActorName, row: &ActorName) -> bool
    ensures { result ≡ same_name actor row.now }
{
    actor == *row
}

fn place_in(rows: &[ActorName], actor: ActorName) -> Option<usize>
    ensures place { result ≡ position (same_name actor) rows.now }
    ensures within { IfSome result (λ i. i < length rows.now) }
{
    rows.iter().position(|row| is_of(actor, row))
}

// The row of an actor, from 1.
fn row_of(rows: &[ActorName], actor: ActorName) -> Option<usize>
    ensures { result ≡ option_map (λ i. i + 1) (position (same_name actor) rows.now) }
{
    match place_in(rows, actor) {
        Some(i) => Some(i + 1),
        None => None,
    }
}

// The row of the entry of a number, if it is shown.
fn row_where(
    entries: &[Entry],
    view: &View,
    rows: &[ActorName],
    number: u64,
    entry: &Entry,
) -> Option<usize>
    ensures { result ≡ row_where (record { journal = entries.now; view = view.now; rows = rows.now }) number (Some entry.now) }
{
    let within = view.from <= number && number <= view.to;
    if within && is_chosen_entry(entries, view.only, entry) {
        row_of(rows, entry.actor)
    } else {
        None
    }
}

// One more, where an entry is shown.
fn counted(shown: usize, row: Option<usize>) -> usize
    requires { shown < 2 ^ 63 }
    ensures { result ≡ shown + cond (is_some row) 1 0 }
{
    if row.is_some() { shown + 1 } else { shown }
}

fn spots_of(
    alloc: Global,
    entries: &[Entry],
    view: &View,
    rows: &[ActorName],
) -> Result<Spots, NoMemory>
    ensures spots { IfOk result (λ kept. kept.spots ≡ map (spot (record { journal = entries.now; view = view.now; rows = rows.now })) (up_to (length entries.now))) }
    ensures width { IfOk result (λ kept. kept.width ≡ shown (record { journal = entries.now; view = view.now; rows = rows.now }) (length entries.now)) }
{
    let mut spots = Vec::new(alloc);
    let mut width = 0usize;
    for i in 0..entries.len() {
        let row = row_where(entries, view, rows, i as u64 + 1, &entries[i]);
        spots.push(Spot { column: width, row })?;
        width = counted(width, row);
    }
    Ok(Spots {
        spots: Sequence::from_vec(spots),
        width,
    })
}

/// The scene of a script and a journal.
pub(crate) fn scene_of<'a>(
    alloc: Global,
    script: &Script,
    journal: &'a Journal,
    view: &'a View,
) -> Result<Scene<'a>, NoMemory>
    requires { IsAccepted script.now }
    ensures { IfOk result (λ scene. scene ≡ scene_of script.now journal.now view.now) }
{
    let rows = rows_of(alloc, script, view)?;
    let spots = spots_of(alloc, journal.entries().as_slice(), view, rows.as_slice())?;
    Ok(Scene {
        journal,
        view,
        rows,
        spots,
    })
}

impl<'a> Scene<'a> {
    pub(crate) fn entries(&self) -> &[Entry]
        ensures { result.now ≡ self.now.journal }
    {
        self.journal.entries().as_slice()
    }

    pub(crate) fn rows(&self) -> &[ActorName]
        ensures { result.now ≡ self.now.rows }
    {
        self.rows.as_slice()
    }

    pub(crate) fn view(&self) -> &View
        ensures { result.now ≡ self.now.view }
    {
        self.view
    }

    /// The column behind all.
    pub(crate) fn width(&self) -> usize
        ensures { result ≡ width self.now }
    {
        self.spots.width
    }

    // The spot of the entry of a number.
    fn spot(&self, number: u64) -> Option<Spot>
        ensures found { IfSome result (λ s. s ≡ spot self.now number) }
        ensures past { result ≡ None → (number ≡ 0) ⊎ (length self.now.journal < number) }
    {
        if number == 0 {
            return None;
        }
        self.spots.spots.get(number as usize - 1).copied()
    }

    // The place of an entry whose spot this is.
    fn placed(&self, number: u64, found: Spot) -> Option<Place>
        requires { found ≡ spot self.now number }
        ensures { result ≡ place self.now number }
    {
        match found.row {
            Some(row) => Some(Place {
                entry: number,
                column: found.column,
                row,
            }),
            None => None,
        }
    }

    /// Where the entry of a number is drawn, if it is shown.
    pub(crate) fn place(&self, number: u64) -> Option<Place>
        ensures { result ≡ place self.now number }
    {
        match self.spot(number) {
            Some(spot) => self.placed(number, spot),
            None => None,
        }
    }

    // Where a site's rows end.
    fn site_end(&self, site: Site) -> usize
        ensures { result ≡ site_end self.now site }
    {
        match self.journal.crashed(site) {
            Some(number) => match self.spot(number) {
                Some(spot) => spot.column,
                None => self.spots.width,
            },
            None => self.spots.width,
        }
    }

    /// The column where an actor's row ends.
    pub(crate) fn row_end(&self, actor: ActorName) -> usize
        ensures { result ≡ row_end self.now actor }
    {
        match actor {
            ActorName::Session(_) => self.width(),
            ActorName::Process(site) => self.site_end(site),
            ActorName::Executor(site) => self.site_end(site),
        }
    }
}
