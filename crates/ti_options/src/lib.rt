// The options of ti's commands: `-e EDITION` of every command, one of a command's own, and `--`, which ends them.
// Proved: the edition given is none that is too large; the one before any -e is the second (`default_edition`); the
// place behind an option is as many words on as specs/Steps.antt says; each function is safe and ends. What a word is,
// `option_words` says. Not stated, and tested: which words stand there. Assumed: what std says of
// the system.
#![tactic(auto)]

ghost use Rattle.std.specs.Prelude.{◌≡◌, true, ◌+◌, ◌<◌, IfOk};
ghost use Rattle.edition.specs.Edition.{ok_edition};
ghost use Rattle.names.specs.Names.{second_edition};
ghost use Rattle.ti_options.specs.Steps.{words_of};

use edition::Edition;
use option_words::{OwnOption, WordKind};
use ti_common::output::complain_quoted;
use ti_common::words::{Words, misuse, word_or_none};
use ti_common::{Stop, complain};

// What the options are, and the words behind them.
#[derive(Clone, Copy)]
pub struct Options {
    // the flag stood among them
    pub is_set: bool,
    pub edition: Edition,
    // the place of the word that names the description that is wanted; none where it is the text's first
    pub wanted: Option<u16>,
    pub words: Words,
}

// What stands at a place.
#[derive(Clone, Copy)]
enum Step {
    Operand,
    End,
    Flag,
    // `-e` and its word
    Edition(Edition),
    // `-n` and its word
    Name,
}

// The most words of options.
const OPTIONS_END: u16 = 1000;

// The edition where no -e stands.
fn default_edition() -> Edition
    ensures { result ≡ second_edition }
{
    names::SECOND_EDITION
}

// Says that an option is unknown.
fn wrong_option(rt: HostRuntime, word: &[u8]) -> Stop {
    complain(rt, b"ti: unknown option ");
    complain_quoted(rt, word);
    complain(rt, b"\n");
    Stop::Failed
}

// Says that no edition stands behind -e.
fn wrong_edition(rt: HostRuntime, word: &[u8]) -> Stop {
    complain(rt, b"ti: ");
    complain_quoted(rt, word);
    complain(rt, b" names no edition: 1, 2 or B,N,S\n");
    Stop::Failed
}

// The edition that the word at a place behind -e names.
fn edition_at(rt: HostRuntime, place: usize) -> Result<Edition, Stop> {
    if ti_common::words::count_all(rt) <= place {
        complain(rt, b"ti: no edition stands behind -e: 1, 2 or B,N,S\n");
        return Err(Stop::Failed);
    }
    let mut word = io::buffer();
    let word = word_or_none(rt, place, &mut word);
    match edition_words::parse(word) {
        Some(edition) => Ok(edition),
        None => Err(wrong_edition(rt, word)),
    }
}

// Expects a name at a place behind -n.
fn expect_name(rt: HostRuntime, place: usize) -> Result<(), Stop> {
    if ti_common::words::count_all(rt) <= place {
        complain(rt, b"ti: no name stands behind -n\n");
        return Err(Stop::Failed);
    }
    Ok(())
}

// What stands at a place among all words; says what is wrong.
fn step_at(rt: HostRuntime, place: u16, own: OwnOption) -> Result<Step, Stop> {
    let mut word = io::buffer();
    let word = word_or_none(rt, place as usize, &mut word);
    let behind = place as usize + 1;
    match option_words::kind_of(word, own) {
        WordKind::Operand => Ok(Step::Operand),
        WordKind::End => Ok(Step::End),
        WordKind::Flag => Ok(Step::Flag),
        WordKind::Edition => Ok(Step::Edition(edition_at(rt, behind)?)),
        WordKind::Name => {
            expect_name(rt, behind)?;
            Ok(Step::Name)
        }
        WordKind::Unknown => Err(wrong_option(rt, word)),
    }
}

// The place behind what stands at a place.
#[tactic(auto, unfolding(crate::specs::Steps::words_of))]
fn behind(step: Step, place: u16) -> u16
    requires { place < 1000 }
    ensures { (result ≡ place + words_of step) × (place < result) }
{
    match step {
        Step::Operand | Step::End | Step::Flag => place + 1,
        Step::Edition(_) => place + 2,
        Step::Name => place + 2,
    }
}

// The options that stand before the operands; of several -e the last counts, and of several -n. Says what is wrong.
fn options_of(rt: HostRuntime, words: Words, own: OwnOption) -> Result<Options, Stop> {
    let mut options = Options {
        is_set: false,
        edition: default_edition(),
        wanted: None,
        words,
    };
    // A cursor that moves by an option's words: no range counts it.
    while options.words.first < OPTIONS_END {
        let place = options.words.first;
        let step = step_at(rt, place, own)?;
        let next = behind(step, place);
        match step {
            Step::Operand => return Ok(options),
            Step::End => {
                options.words.first = next;
                return Ok(options);
            }
            Step::Flag => options.is_set = true,
            Step::Edition(given) => options.edition = given,
            Step::Name => options.wanted = Some(place + 1),
        }
        options.words.first = next;
    }
    Err(Stop::Failed)
}

// Takes a command's options; says what is wrong, and then how the command is called or that the edition is too large.
pub fn take(rt: HostRuntime, words: Words, own: OwnOption, usage: &[u8]) -> Result<Options, Stop>
    ensures { IfOk result (λ o. ok_edition o.edition ≡ true) }
{
    match options_of(rt, words, own) {
        Ok(options) if edition::edition_ok(options.edition) => Ok(options),
        Ok(_) => Err(ti_refusals::refuse_edition(rt)),
        Err(_) => Err(misuse(rt, usage)),
    }
}
