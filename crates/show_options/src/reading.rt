//! The words of a call, read one after another.
ghost use Rattle.std.specs.Prelude.{◌≡◌, map, string_bytes};
ghost use Rattle.show_options.specs.Asked.{actor_read, asked_by, asked_for, bound_read, ended, first_reading, from_read, kind_read, line_read, named, read_on, to_read, wanted_after, with_form, with_run, word_read};

use crate::asked::{Asked, Bound, Command, Form};
use crate::fault::{Fault, Wrong};
use crate::names::{actor_named, bound_named, decimal, kind_named};

// Whose value the next word is.
#[derive(Clone, Copy, Drop)]
enum Wants {
    Nothing,
    From,
    FromLine,
    To,
    ToLine,
    Actor,
    Kind,
    Word,
}

// What the words so far ask for, and what the next one is.
#[derive(Clone, Copy, Drop)]
struct Reading {
    asked: Asked,
    wants: Wants,
}

fn asked_for(asked: Asked) -> Result<Reading, Wrong>
    ensures { result ≡ asked_for asked }
{
    Ok(Reading {
        asked,
        wants: Wants::Nothing,
    })
}

// The option whose value comes after this word.
fn wanted_after(word: &str) -> Option<Wants>
    ensures { result ≡ wanted_after word.now }
{
    if word == "--from" {
        Some(Wants::From)
    } else if word == "--to" {
        Some(Wants::To)
    } else if word == "--actor" {
        Some(Wants::Actor)
    } else if word == "--kind" {
        Some(Wants::Kind)
    } else if word == "--word" {
        Some(Wants::Word)
    } else {
        None
    }
}

fn with_form(asked: Asked, form: Form) -> Result<Reading, Wrong>
    ensures { result ≡ with_form asked form }
{
    match asked.form {
        None => asked_for(Asked {
            form: Some(form),
            ..asked
        }),
        Some(_) => Err(Wrong::Second),
    }
}

fn with_run(asked: Asked, command: Command) -> Result<Reading, Wrong>
    ensures { result ≡ with_run asked command }
{
    match asked.command {
        None => asked_for(Asked {
            command: Some(command),
            ..asked
        }),
        Some(_) => Err(Wrong::Second),
    }
}

// A word that is no option's value.
fn named(asked: Asked, word: &str) -> Result<Reading, Wrong>
    ensures { result ≡ named word.now asked }
{
    if word == "steps" {
        return with_form(asked, Form::Steps);
    }
    if word == "weave" {
        return with_run(asked, Command::Weave);
    }
    if word == "replay" {
        return with_run(asked, Command::Replay);
    }
    if word == "--changes" {
        return asked_for(Asked {
            changes: true,
            ..asked
        });
    }
    if word == "--help" {
        return asked_for(Asked {
            help: true,
            ..asked
        });
    }
    match wanted_after(word) {
        Some(wants) => Ok(Reading { asked, wants }),
        None => Err(Wrong::Unknown),
    }
}

fn bound_read(word: &str) -> Result<Bound, Wrong>
    ensures { result ≡ bound_read word.now }
{
    match bound_named(word) {
        Some(bound) => Ok(bound),
        None => Err(Wrong::NoBound),
    }
}

fn line_read(word: &str) -> Result<Bound, Wrong>
    ensures { result ≡ line_read word.now }
{
    match decimal(word.as_bytes()) {
        Some(number) => Ok(Bound::Line(number)),
        None => Err(Wrong::NoBound),
    }
}

fn from_read(asked: Asked, bound: Result<Bound, Wrong>) -> Result<Reading, Wrong>
    ensures { result ≡ from_read asked bound }
{
    match bound {
        Ok(bound) => asked_for(Asked {
            from: Some(bound),
            ..asked
        }),
        Err(wrong) => Err(wrong),
    }
}

fn to_read(asked: Asked, bound: Result<Bound, Wrong>) -> Result<Reading, Wrong>
    ensures { result ≡ to_read asked bound }
{
    match bound {
        Ok(bound) => asked_for(Asked {
            to: Some(bound),
            ..asked
        }),
        Err(wrong) => Err(wrong),
    }
}

fn actor_read(asked: Asked, word: &str) -> Result<Reading, Wrong>
    ensures { result ≡ actor_read word.now asked }
{
    match actor_named(word) {
        Some(actor) => asked_for(Asked {
            actor: Some(actor),
            ..asked
        }),
        None => Err(Wrong::NoActor),
    }
}

fn kind_read(asked: Asked, word: &str) -> Result<Reading, Wrong>
    ensures { result ≡ kind_read word.now asked }
{
    match kind_named(word) {
        Some(code) => asked_for(Asked {
            kind: Some(code),
            ..asked
        }),
        None => Err(Wrong::NoKind),
    }
}

// The word of the call with this number, after those so far.
fn word_read(reading: Reading, at: usize, word: &str) -> Result<Reading, Wrong>
    ensures { result ≡ word_read at word.now reading }
{
    let Reading { asked, wants } = reading;
    match wants {
        Wants::Nothing => named(asked, word),
        Wants::From if word == "line" => Ok(Reading {
            asked,
            wants: Wants::FromLine,
        }),
        Wants::From => from_read(asked, bound_read(word)),
        Wants::FromLine => from_read(asked, line_read(word)),
        Wants::To if word == "line" => Ok(Reading {
            asked,
            wants: Wants::ToLine,
        }),
        Wants::To => to_read(asked, bound_read(word)),
        Wants::ToLine => to_read(asked, line_read(word)),
        Wants::Actor => actor_read(asked, word),
        Wants::Kind => kind_read(asked, word),
        Wants::Word => asked_for(Asked {
            word: Some(at),
            ..asked
        }),
    }
}

// No word is left, and the last one has this number.
fn ended(reading: Reading, last: usize) -> Result<Asked, Fault>
    ensures { result ≡ ended last reading }
{
    match reading.wants {
        Wants::Nothing => Ok(reading.asked),
        _ => Err(Fault {
            at: last,
            wrong: Wrong::NoValue,
        }),
    }
}

fn first_reading() -> Reading
    ensures { result ≡ first_reading }
{
    Reading {
        asked: Asked {
            help: false,
            form: None,
            command: None,
            from: None,
            to: None,
            actor: None,
            kind: None,
            word: None,
            changes: false,
        },
        wants: Wants::Nothing,
    }
}

/// What the words of a call ask for, of which the first is the program's name.
pub fn read_words(words: &[String]) -> Result<Asked, Fault>
    ensures { result ≡ asked_by (map string_bytes words.now) }
{
    let [_, options @ ..] = words else {
        return Err(Fault {
            at: 0,
            wrong: Wrong::NoText,
        });
    };
    let mut reading = first_reading();
    let mut last = 0usize;
    let mut rest = options;
    while let [word, after @ ..] = rest {
        let at = last + 1;
        match word_read(reading, at, word.as_str()) {
            Ok(next) => reading = next,
            Err(wrong) => return Err(Fault { at, wrong }),
        }
        last = at;
        rest = after;
    }
    ended(reading, last)
}
