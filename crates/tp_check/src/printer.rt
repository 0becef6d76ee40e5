ghost use Rattle.std.specs.Prelude.{◌≡◌, IfOk, OnOk};
ghost use Rattle.tp_check.specs.Print.{cause_words, text_of, verdict_words};
ghost use Rattle.tp_text.specs.Writing.{ended, with_words};

use crate::verdict::{EntryCause, Verdict};
use std::alloc::Global;
use tp_base::{Bytes, NoMemory};
use tp_text::Text;

/// A verdict's line: `yes` and the number of entries, or `no`, the illegal entry and its cause.
pub fn print_verdict(alloc: Global, verdict: Verdict) -> Result<Bytes, NoMemory>
    ensures { IfOk result (λ text. text ≡ text_of verdict) }
{
    let mut text = Text::new(alloc);
    put_verdict(&mut text, verdict)?;
    Ok(text.finish())
}

fn put_verdict(text: &mut Text, verdict: Verdict) -> Result<(), NoMemory>
    ensures { OnOk result (text.new ≡ ended (with_words text.old (verdict_words verdict))) }
{
    match verdict {
        Verdict::Run { entries } => {
            text.word(b"yes")?;
            text.number(entries)?;
        }
        Verdict::No { entry, cause } => {
            text.word(b"no")?;
            text.number(entry)?;
            put_cause(text, cause)?;
        }
    }
    text.end_line()
}

fn put_cause(text: &mut Text, cause: EntryCause) -> Result<(), NoMemory>
    ensures { OnOk result (text.new ≡ with_words text.old (cause_words cause)) }
{
    match cause {
        EntryCause::Stranger => text.word(b"stranger"),
        EntryCause::Dead => text.word(b"dead"),
        EntryCause::Message => text.word(b"message"),
        EntryCause::Addressee => text.word(b"addressee"),
        EntryCause::Plan => text.word(b"plan"),
        EntryCause::NotEnabled => text.word(b"notenabled"),
        EntryCause::Outputs { place } => {
            text.word(b"outputs")?;
            text.number(place)
        }
    }
}
