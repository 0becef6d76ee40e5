use crate::place::Place;
use crate::sign::Sign;
use tp_base::{ActorName, CommandId};

/// A part of a picture.
#[derive(Clone, Copy, Debug, PartialEq, Eq)]
pub enum Shape {
    /// The picture's size, how each class is drawn, and the name of the line of commands.
    Frame {
        columns: usize,
        rows: usize,
    },
    /// What each class and mark means, below so many rows.
    Legend {
        rows: usize,
    },
    /// An actor's row, up to the column where it ends, with its name also behind the picture's columns.
    Row {
        row: usize,
        actor: ActorName,
        end: usize,
        columns: usize,
    },
    /// A delivery, from the entry that sent the message to the one that delivers it.
    Arrow {
        sign: Sign,
        from: Place,
        to: Place,
    },
    /// The way of a lost message, from the entry that sent it to the one that loses it.
    Lost {
        sign: Sign,
        from: Place,
        to: Place,
    },
    /// An entry, with its label.
    Dot {
        actor: ActorName,
        sign: Option<Sign>,
        at: Place,
    },
    /// A loss.
    Cross {
        at: Place,
    },
    /// A site's crash.
    End {
        at: Place,
    },
    /// A command's first execution.
    First {
        id: CommandId,
        at: Place,
    },
}
