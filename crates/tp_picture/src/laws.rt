ghost use Rattle.tp_picture.specs.Laws.{GrowsFrom, HasArrows, HasCrosses, HasDots, HasLosses};
ghost use Rattle.tp_picture.specs.Scenes.{scene_of};

use crate::view::View;
use tp_journal::Journal;
use tp_script::Script;

/// A law over the definitions alone, of each picture: an entry that is shown stands left of all that
/// follow it. The function does nothing and takes no memory.
pub fn law_columns(script: &Script, journal: &Journal, view: &View)
    ensures { GrowsFrom (scene_of script.now journal.now view.now) }
{}

/// The numbers of a picture's dots are those of the entries that are shown, each once and in order.
pub fn law_dots(script: &Script, journal: &Journal, view: &View)
    ensures { HasDots script.now journal.now view.now }
{}

/// The numbers of a picture's crosses are those of the losses that are shown, each once and in order.
pub fn law_crosses(script: &Script, journal: &Journal, view: &View)
    ensures { HasCrosses script.now journal.now view.now }
{}

/// A picture's arrows are those of the deliveries, each once and in order, from the entry that sent the
/// message to the one that delivers it, where both are shown. The ways of lost messages are those of the
/// losses.
pub fn law_arrows(script: &Script, journal: &Journal, view: &View)
    ensures delivered { HasArrows script.now journal.now view.now }
    ensures lost { HasLosses script.now journal.now view.now }
{}
