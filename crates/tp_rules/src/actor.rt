ghost use Rattle.std.specs.Prelude.{◌≡◌, ◌∷◌, false, is_err, Bool, List, IfOk, OnOk};
ghost use Rattle.tp_rules.specs.Acts.{Act, Did, Identity, Took, name_in};
ghost use Rattle.tp_rules.specs.Rules.{MayMake, enabled, outputs_of};
ghost use Rattle.tp_wire.specs.Ranges.{IsInRange};

use crate::event::{Inner, Outputs};
use tp_base::{ActorName, NoMemory};
use tp_wire::Message;

/// A process, an executor or a session, one step at a time. Once a step wants memory, it is spent.
pub trait Actor: Drop {
    /// What it was made with.
    ghost identity_of: { Self → Identity };

    /// Whether it is to be used no more.
    ghost is_spent: { Self → Bool };

    /// That it is where its rules leave it after these acts, the newest first.
    ghost stands: { Self → List Act → Type 0 };

    fn name(&self) -> ActorName
        ensures { result ≡ name_in (identity_of self.now) };

    /// Whether a step wanted memory: then it is to be used no more.
    fn spent(&self) -> bool
        ensures { result ≡ is_spent self.now };

    /// Takes a message, and gives the messages that it sends.
    fn deliver(&mut self, message: &Message) -> Result<Outputs, NoMemory>
        requires unspent { is_spent self.old ≡ false }
        requires range { IsInRange message.now }
        ensures identity { identity_of self.new ≡ identity_of self.old }
        ensures spent { is_spent self.new ≡ is_err result }
        ensures outputs { IfOk result (λ outputs. (acts : List Act) → stands self.old acts
            → outputs ≡ outputs_of (identity_of self.old) acts (Took message.now)) }
        ensures stands { OnOk result ((acts : List Act) → stands self.old acts
            → stands self.new (Took message.now ∷ acts)) };

    /// Makes a step of its own, and gives the messages that it sends.
    fn fire(&mut self, inner: Inner) -> Result<Outputs, NoMemory>
        requires unspent { is_spent self.old ≡ false }
        requires may { (acts : List Act) × stands self.old acts × MayMake (identity_of self.old) acts inner }
        ensures identity { identity_of self.new ≡ identity_of self.old }
        ensures spent { is_spent self.new ≡ is_err result }
        ensures outputs { IfOk result (λ outputs. (acts : List Act) → stands self.old acts
            → outputs ≡ outputs_of (identity_of self.old) acts (Did inner)) }
        ensures stands { OnOk result ((acts : List Act) → stands self.old acts → stands self.new (Did inner ∷ acts)) };

    /// The step of its own that it may make now.
    fn next_inner(&self) -> Option<Inner>
        ensures { (acts : List Act) → stands self.now acts → result ≡ enabled (identity_of self.now) acts };
}
