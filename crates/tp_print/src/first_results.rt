ghost use Rattle.std.specs.Option.{option_copied, option_or};
ghost use Rattle.std.specs.Prelude.{◌≡◌, ◌≤◌, ◌==◌, ℕ, cond, Some, None, replicate};
ghost use Rattle.tp_base.specs.Tables.{kept_at};

use std::marker::Model;
use tp_base::PartitionId;
use tp_ops::Answers;

/// The answers of partitions 1 to 4 for a command, of each the first that its session was given.
#[derive(Drop)]
pub struct FirstResults<'a> {
    answers: [Option<&'a Answers>; 4],
}

impl<'a> Model for FirstResults<'a> {
    ghost use Rattle.std.specs.Option.{option_copied};
    ghost use Rattle.std.specs.Prelude.{◌≡◌, List, Option, length, map};
    ghost use Rattle.tp_ops.specs.declared.operation.Answer.{Answer};

    ghost Value = { List (Option (List Answer)) };

    ghost view = { λ r. map option_copied r.answers };

    ghost invariant = { λ r. length r.answers ≡ 4 };
}

impl<'a> FirstResults<'a> {
    pub fn new() -> Self
        ensures { result ≡ replicate 4 None }
    {
        FirstResults {
            answers: [None, None, None, None],
        }
    }

    /// Keeps the answers of a partition, where none are kept of it.
    pub fn put(&mut self, p: PartitionId, answers: &'a Answers)
        requires from { 1 ≤ p.0 }
        requires to { p.0 ≤ 4 }
        ensures { (q : ℕ) → kept_at self.new q ≡ option_or (kept_at self.old q)
            (cond (p.0 == q) (Some answers.now) None) }
    {
        let place = usize::from(p.0) - 1;
        let kept = &mut self.answers[..];
        if kept[place].is_some() {
            return;
        }
        kept[place] = Some(answers);
    }

    pub fn get(&self, p: PartitionId) -> Option<&Answers>
        requires from { 1 ≤ p.0 }
        requires to { p.0 ≤ 4 }
        ensures { option_copied result ≡ kept_at self.now p.0 }
    {
        let kept = &self.answers[..];
        kept[usize::from(p.0) - 1]
    }
}
