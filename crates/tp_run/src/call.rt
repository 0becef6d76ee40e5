ghost use Rattle.std.specs.Prelude.{◌≡◌, bytes_eq, string_bytes};
ghost use Rattle.tp_run.specs.Calls.{call_for, call_of, is_threaded, plain, threaded};

use tp_text::number;

/// What the words ask for.
#[derive(Clone, Copy, Debug, PartialEq, Eq)]
pub enum Call {
    /// `run`: to run the script that is the input, each actor on a thread of its own.
    Run,
    /// `trace`: the same, and to print the journal too.
    Trace,
    /// `step`: to run the script that is the input, one step at a time.
    Step,
    /// `check`: to check the journal that stands behind a script in the input.
    Check,
    /// `gen N`: to print the script of a number.
    Gen(u32),
    /// `load N`: to run the script of a number as `step` does, and to count.
    Load(u32),
}

/// The call that the words are, if they are served.
#[tactic(auto, unfolding(crate::specs::Calls::call_of))]
pub fn call_of(words: &[String]) -> Option<Call>
    ensures { result ≡ call_of words.now }
{
    match words {
        [word] => {
            if is_word(word, "run") {
                Some(Call::Run)
            } else if is_word(word, "trace") {
                Some(Call::Trace)
            } else if is_word(word, "step") {
                Some(Call::Step)
            } else if is_word(word, "check") {
                Some(Call::Check)
            } else {
                None
            }
        }
        [word, n] => match number(n.as_bytes(), u64::from(u32::MAX)) {
            Ok(n) => call_for(word, n as u32),
            Err(_) => None,
        },
        _ => None,
    }
}

// The call for a number that a word says.
fn call_for(word: &String, n: u32) -> Option<Call>
    ensures { result ≡ call_for (string_bytes word.now) n }
{
    if is_word(word, "gen") {
        Some(Call::Gen(n))
    } else if is_word(word, "load") {
        Some(Call::Load(n))
    } else {
        None
    }
}

fn is_word(word: &String, text: &str) -> bool
    ensures { result ≡ bytes_eq (string_bytes word.now) text.now }
{
    word.as_str() == text
}

/// The call that the words are, if threads serve it.
pub fn threaded_call(words: &[String]) -> Option<Call>
    ensures { result ≡ threaded (call_of words.now) }
{
    let call = call_of(words)?;
    if call.is_threaded() { Some(call) } else { None }
}

/// The call that the words are, if it is served without threads.
pub fn plain_call(words: &[String]) -> Option<Call>
    ensures { result ≡ plain (call_of words.now) }
{
    let call = call_of(words)?;
    if call.is_threaded() { None } else { Some(call) }
}

impl Call {
    /// Whether threads serve it.
    pub fn is_threaded(&self) -> bool
        ensures { result ≡ is_threaded self.now }
    {
        matches!(self, Call::Run | Call::Trace)
    }
}
