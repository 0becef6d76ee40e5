ghost use Rattle.std.specs.Prelude.{◌≡◌, ◌++◌, ◌∷◌, OnOk};
ghost use Rattle.tp_svg.specs.Svg.{class_word, dot_class, id_part, kind_word, number_part, sign_words};
ghost use Rattle.tp_text.specs.Names.{actor_word, id_word, site_word};

use crate::numbers::put_number;
use tp_base::{ActorName, CommandId, NoMemory, Put, Site};
use tp_picture::{Kind, Sign};

fn put_site(out: &mut Put, mark: u8, site: Site) -> Result<(), NoMemory>
    ensures { OnOk result (out.new ≡ out.old ++ mark ∷ site_word site) }
{
    out.byte(mark)?;
    put_number(out, u128::from(site.partition.0))?;
    out.byte(b'.')?;
    put_number(out, u128::from(site.rank.0))
}

pub(crate) fn put_actor(out: &mut Put, actor: ActorName) -> Result<(), NoMemory>
    ensures { OnOk result (out.new ≡ out.old ++ actor_word actor) }
{
    match actor {
        ActorName::Process(site) => put_site(out, b'p', site),
        ActorName::Executor(site) => put_site(out, b'e', site),
        ActorName::Session(session) => {
            out.byte(b's')?;
            put_number(out, u128::from(session.0))
        }
    }
}

pub(crate) fn put_id(out: &mut Put, id: CommandId) -> Result<(), NoMemory>
    ensures { OnOk result (out.new ≡ out.old ++ id_word id) }
{
    put_number(out, u128::from(id.session.0))?;
    out.byte(b'.')?;
    put_number(out, u128::from(id.number))
}

fn put_id_part(out: &mut Put, id: Option<CommandId>) -> Result<(), NoMemory>
    ensures { OnOk result (out.new ≡ out.old ++ id_part id) }
{
    if let Some(id) = id {
        out.bytes(b" ")?;
        put_id(out, id)?;
    }
    Ok(())
}

fn put_number_part(out: &mut Put, mark: &[u8], n: Option<u64>) -> Result<(), NoMemory>
    ensures { OnOk result (out.new ≡ out.old ++ number_part mark.now n) }
{
    if let Some(n) = n {
        out.bytes(mark)?;
        put_number(out, u128::from(n))?;
    }
    Ok(())
}

fn kind_word(kind: Kind) -> &'static [u8]
    ensures { result.now ≡ kind_word kind }
{
    match kind {
        Kind::Submit => b"Submit",
        Kind::Propose => b"Propose",
        Kind::Payload => b"Payload",
        Kind::ProposeAck => b"ProposeAck",
        Kind::Bump => b"Bump",
        Kind::Consensus => b"Consensus",
        Kind::ConsensusAck => b"ConsensusAck",
        Kind::Commit => b"Commit",
        Kind::Rec => b"Rec",
        Kind::RecAck => b"RecAck",
        Kind::Promises => b"Promises",
        Kind::Committed => b"Committed",
        Kind::Stable => b"Stable",
        Kind::Result => b"Result",
        Kind::Submits => b"submit",
        Kind::Recovers => b"recover",
        Kind::Announces => b"announce",
        Kind::Declares => b"declare",
        Kind::Executes => b"execute",
        Kind::Crashes => b"crash",
    }
}

/// What a kind is about, or `own` for an actor's own step.
pub(crate) fn class_word(kind: Kind) -> &'static [u8]
    ensures { result.now ≡ class_word kind }
{
    match kind {
        Kind::Submit => b"submission",
        Kind::Propose => b"fast",
        Kind::Payload => b"fast",
        Kind::ProposeAck => b"fast",
        Kind::Bump => b"fast",
        Kind::Consensus => b"consensus",
        Kind::ConsensusAck => b"consensus",
        Kind::Commit => b"commit",
        Kind::Rec => b"recovery",
        Kind::RecAck => b"recovery",
        Kind::Promises => b"promises",
        Kind::Committed => b"commit",
        Kind::Stable => b"execution",
        Kind::Result => b"execution",
        Kind::Submits => b"own",
        Kind::Recovers => b"own",
        Kind::Announces => b"own",
        Kind::Declares => b"own",
        Kind::Executes => b"own",
        Kind::Crashes => b"own",
    }
}

pub(crate) fn dot_class(sign: Option<Sign>) -> &'static [u8]
    ensures { result.now ≡ dot_class sign }
{
    match sign {
        Some(sign) => class_word(sign.kind),
        None => b"own",
    }
}

/// What is told of an event, behind its number and actor.
pub(crate) fn put_sign(out: &mut Put, sign: Option<Sign>) -> Result<(), NoMemory>
    ensures { OnOk result (out.new ≡ out.old ++ sign_words sign) }
{
    if let Some(sign) = sign {
        out.bytes(b" ")?;
        out.bytes(kind_word(sign.kind))?;
        put_id_part(out, sign.id)?;
        put_number_part(out, b" @", sign.stamp)?;
        put_number_part(out, b" b", sign.ballot)?;
    }
    Ok(())
}
