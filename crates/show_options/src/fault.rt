ghost use Rattle.std.specs.Prelude.{◌≡◌, ◌++◌, OnOk, map, string_bytes};
ghost use Rattle.show_options.specs.Faults.{fault_text, usage_text, word_at, wrong_text};

use core_views::NoMemory;

/// What is wrong with a word of a call.
#[derive(Clone, Copy, Drop)]
pub enum Wrong {
    /// The words are no text, or there are none.
    NoText,
    /// It is no form, no run and no option.
    Unknown,
    /// A form, or a run, stands before it.
    Second,
    /// An option whose value is missing.
    NoValue,
    /// It is no place in the order of turns.
    NoBound,
    /// It names no actor.
    NoActor,
    /// It names no kind of step.
    NoKind,
    /// It names no word of the machine.
    NoWord,
}

/// What is wrong, and with which word of the call.
#[derive(Clone, Copy, Drop)]
pub struct Fault {
    pub at: usize,
    pub wrong: Wrong,
}

impl Wrong {
    // What is wrong, in words.
    fn text(self) -> &'static str
        ensures { result.now ≡ wrong_text self }
    {
        match self {
            Wrong::NoText => "no text",
            Wrong::Unknown => "no form, run or option",
            Wrong::Second => "named before",
            Wrong::NoValue => "no value",
            Wrong::NoBound => "no turn",
            Wrong::NoActor => "no actor",
            Wrong::NoKind => "no kind of step",
            Wrong::NoWord => "no word of the machine",
        }
    }
}

const USAGE: &str = "\
usage: show_steps [steps] [weave | replay] [--from AT] [--to AT] [--actor ACTOR] [--kind KIND] [--word WORD] [--changes] [--help]
AT is go, the number of a turn, or line and its number
";

/// The usage.
#[tactic(auto, unfolding(crate::specs::Faults::usage_text))]
pub fn usage_text() -> &'static str
    ensures { result.now ≡ usage_text }
{
    USAGE
}

/// The word of a call with this number, and no letters where there is none.
pub fn word_at(words: &[String], at: usize) -> &str
    ensures { result.now ≡ word_at (map string_bytes words.now) at }
{
    match words.get(at) {
        Some(word) => word.as_str(),
        None => "",
    }
}

/// Puts what is wrong with the words, and the usage, after a text.
pub fn push_fault(text: &mut String, words: &[String], fault: Fault) -> Result<(), NoMemory>
    ensures { OnOk result (string_bytes text.new ≡ string_bytes text.old ++ fault_text (map string_bytes words.now) fault) }
{
    let word = word_at(words, fault.at);
    let wrong = fault.wrong.text();
    let usage = usage_text();
    write!(text, "{wrong}: {word}\n{usage}")?;
    Ok(())
}
