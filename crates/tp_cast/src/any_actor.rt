use tp_base::{ActorName, NoMemory};
use tp_executor::Executor;
use tp_process::Process;
use tp_rules::{Actor, Inner, Outputs};
use tp_session::Session;
use tp_wire::Message;

/// An actor of any sort.
#[derive(Drop)]
pub enum AnyActor {
    Process(Process),
    Executor(Executor),
    Session(Session),
}

impl Actor for AnyActor {
    ghost use Rattle.tp_cast.specs.Actors.{identity, is_spent, Stands};

    ghost identity_of = { identity };

    ghost is_spent = { is_spent };

    ghost stands = { Stands };

    fn name(&self) -> ActorName {
        match self {
            AnyActor::Process(process) => process.name(),
            AnyActor::Executor(executor) => executor.name(),
            AnyActor::Session(session) => session.name(),
        }
    }

    fn spent(&self) -> bool {
        match self {
            AnyActor::Process(process) => process.spent(),
            AnyActor::Executor(executor) => executor.spent(),
            AnyActor::Session(session) => session.spent(),
        }
    }

    fn deliver(&mut self, message: &Message) -> Result<Outputs, NoMemory> {
        match self {
            AnyActor::Process(process) => process.deliver(message),
            AnyActor::Executor(executor) => executor.deliver(message),
            AnyActor::Session(session) => session.deliver(message),
        }
    }

    fn fire(&mut self, inner: Inner) -> Result<Outputs, NoMemory> {
        match self {
            AnyActor::Process(process) => process.fire(inner),
            AnyActor::Executor(executor) => executor.fire(inner),
            AnyActor::Session(session) => session.fire(inner),
        }
    }

    fn next_inner(&self) -> Option<Inner> {
        match self {
            AnyActor::Process(process) => process.next_inner(),
            AnyActor::Executor(executor) => executor.next_inner(),
            AnyActor::Session(session) => session.next_inner(),
        }
    }
}
