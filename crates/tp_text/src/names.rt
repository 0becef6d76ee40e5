ghost use Rattle.std.specs.Fmt.{decimal};
ghost use Rattle.std.specs.Prelude.{◌≡◌, ◌++◌, OnOk};
ghost use Rattle.tp_text.specs.Names.{actor_word, id_word, site_word};

use itoa::Buffer;
use tp_base::{ActorName, CommandId, NoMemory, Put, Site};

/// Writes a decimal number.
pub fn put_number(out: &mut Put, n: u64) -> Result<(), NoMemory>
    ensures { OnOk result (out.new ≡ out.old ++ decimal n) }
{
    let mut buffer = Buffer::new();
    out.bytes(buffer.format(n).as_bytes())
}

pub fn put_site(out: &mut Put, site: Site) -> Result<(), NoMemory>
    ensures { OnOk result (out.new ≡ out.old ++ site_word site) }
{
    put_number(out, u64::from(site.partition.0))?;
    out.byte(b'.')?;
    put_number(out, u64::from(site.rank.0))
}

pub fn put_id(out: &mut Put, id: CommandId) -> Result<(), NoMemory>
    ensures { OnOk result (out.new ≡ out.old ++ id_word id) }
{
    put_number(out, u64::from(id.session.0))?;
    out.byte(b'.')?;
    put_number(out, u64::from(id.number))
}

pub fn put_actor(out: &mut Put, actor: ActorName) -> Result<(), NoMemory>
    ensures { OnOk result (out.new ≡ out.old ++ actor_word actor) }
{
    match actor {
        ActorName::Process(site) => {
            out.byte(b'p')?;
            put_site(out, site)
        }
        ActorName::Executor(site) => {
            out.byte(b'e')?;
            put_site(out, site)
        }
        ActorName::Session(session) => {
            out.byte(b's')?;
            put_number(out, u64::from(session.0))
        }
    }
}
