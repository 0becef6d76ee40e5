use std::alloc::{AllocError, Global};
use std::fmt::Write;
use tp_base::{ActorName, Made, NoMemory, Pair};
use tp_rules::Outputs;
use tp_wire::Body;

/// What messages say and to whom: `MConsensus stamp 2 ballot 1 to p1.1 p1.2; MPayload to p1.3`.
/// Those that say the same in a row are told together.
pub(crate) fn text_of(alloc: Global, outputs: &Outputs) -> Result<String, NoMemory> {
    let mut text = String::new(alloc);
    let mut last = String::new(alloc);
    for message in outputs.as_slice() {
        let saying = saying(alloc, &message.body)?;
        if saying != last {
            add(&mut text, &saying)?;
            text.push_str(" to")?;
            last = saying;
        }
        text.push_str(&name_of(alloc, message.to)?)?;
    }
    Ok(text)
}

/// Adds a part to a text, behind the others.
pub(crate) fn add(text: &mut String, part: &str) -> Result<(), AllocError> {
    if !text.is_empty() {
        text.push_str("; ")?;
    }
    text.push_str(part)
}

fn name_of(alloc: Global, name: ActorName) -> Result<String, AllocError> {
    match name {
        ActorName::Process(site) => format!(in alloc; " p{}.{}", site.partition.0, site.rank.0),
        ActorName::Executor(site) => format!(in alloc; " e{}.{}", site.partition.0, site.rank.0),
        ActorName::Session(session) => format!(in alloc; " s{}", session.0),
    }
}

/// The kind of a message and its numbers, without the identifier and the command.
fn saying(alloc: Global, body: &Body) -> Result<String, AllocError> {
    match body {
        Body::MPropose { command: _, floor } => format!(in alloc; "MPropose floor {}", floor.0),
        Body::MPayload { command: _ } => format!(in alloc; "MPayload"),
        Body::MProposeAck { id: _, stamp } => format!(in alloc; "MProposeAck stamp {}", stamp.0),
        Body::MBump { id: _, stamp } => format!(in alloc; "MBump stamp {}", stamp.0),
        Body::MConsensus {
            command: _,
            stamp,
            ballot,
        } => format!(in alloc; "MConsensus stamp {} ballot {ballot}", stamp.0),
        Body::MConsensusAck { id: _, ballot } => {
            format!(in alloc; "MConsensusAck ballot {ballot}")
        }
        Body::MCommit {
            command: _,
            partition,
            stamp,
        } => format!(in alloc; "MCommit partition {} stamp {}", partition.0, stamp.0),
        Body::MRec { command: _, ballot } => format!(in alloc; "MRec ballot {ballot}"),
        Body::MRecAck {
            id: _,
            stamp,
            made,
            accepted,
            ballot,
        } => answer(alloc, stamp.0, *made, *accepted, *ballot),
        Body::MPromises { lo, hi, pairs } => promises(alloc, *lo, *hi, pairs.as_slice()),
        Body::MCommitted { command: _, stamp } => format!(in alloc; "MCommitted stamp {}", stamp.0),
        _ => format!(in alloc; "no word of a process"),
    }
}

fn answer(
    alloc: Global,
    stamp: u64,
    made: Made,
    accepted: u64,
    ballot: u64,
) -> Result<String, AllocError> {
    let made = match made {
        Made::Proposal => "proposal",
        Made::Recovery => "recovery",
    };
    format!(in alloc; "MRecAck stamp {stamp} by {made} accepted {accepted} ballot {ballot}")
}

fn promises(alloc: Global, lo: u64, hi: u64, pairs: &[Pair]) -> Result<String, AllocError> {
    let mut text = format!(in alloc; "MPromises lo {lo} hi {hi}")?;
    for pair in pairs {
        write!(
            text,
            " {}.{}@{}",
            pair.id.session.0, pair.id.number, pair.stamp.0
        )?;
    }
    Ok(text)
}
