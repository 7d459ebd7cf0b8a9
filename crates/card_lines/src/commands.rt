// A line of text: a step of a card's day, or a question.
ghost use Rattle.std.specs.Prelude.{◌≡◌, ◌∷◌, [], true, map, IfOk, Some};
ghost use Rattle.spelling.specs.Failed.{UnlessShort};
ghost use Rattle.spelling.specs.Octets.{octets_or_none};
ghost use Rattle.spelling.specs.Sized.{octets_in};
ghost use Rattle.spelling.specs.Words.{OfWords};
ghost use Rattle.std.specs.Option.{ok_or};
ghost use Rattle.card_lines.specs.Commands.{Asks, Loads, Writes, is_write, plmn_given, steps_of};
ghost use Rattle.card_lines.specs.Lines.{AsksFor, AsksWords};
ghost use Rattle.card_lines.specs.declared.faults.BadCommand.TheVariants.{BadPlmn, BadImage};

use crate::items::Items;
use crate::parts::Parts;
use crate::words::Verb;
use crate::{BadCommand, Kind, Part};
use card::{Card, Unlawful};
use spelling::{Failed, words_in};
use std::alloc::{AllocError, Global};
use std::str::SplitWhitespace;
use stores::Step;
use vocabulary::Plmn;

#[derive(Drop)]
pub enum Command {
    // Nothing but spaces and a comment.
    Blank,
    // Steps on both stores, in their order.
    Steps(Vec<Step>),
    // Every question to both stores.
    Show,
    // The image store is made of these octets.
    Octets([u8; 48]),
    // The card of the other store is copied into this one.
    CopyInto(Kind),
    // What the image means after each of its octets in turn is damaged.
    Damage,
    // A card is given with a part that is not lawful: a case and no error, since it is shown like any other.
    Refused(Unlawful),
    // Why the line is not understood: a case and no error, since it is shown like any other.
    Bad(BadCommand),
}

fn step_of(card: &Card, part: Part) -> Step
    ensures value { is_write result ≡ true }
{
    match part {
        Part::Imsi => Step::WriteImsi(card.imsi),
        Part::Packet => Step::WritePacket(card.packet),
        Part::Circuit => Step::WriteCircuit(card.circuit),
        Part::Forbidden => Step::WriteForbidden(card.forbidden),
    }
}

// A step for each part that is given.
fn writes(heap: Global, parts: &Parts, card: &Card) -> Result<Command, AllocError>
    ensures value { IfOk result Writes }
{
    let steps = [Part::Imsi, Part::Packet, Part::Circuit, Part::Forbidden]
        .into_iter()
        .filter(|part| parts.has(*part))
        .map(|part| step_of(card, part))
        .collect(heap)?;
    Ok(Command::Steps(steps))
}

fn one_step(heap: Global, step: Step) -> Result<Command, AllocError>
    ensures value { IfOk result (λ command. steps_of command ≡ Some (step ∷ [])) }
{
    Ok(Command::Steps(vec![in heap; step]?))
}

fn parts_in(heap: Global, words: SplitWhitespace<'_>) -> Result<Parts, Failed<BadCommand>> {
    let mut parts = Parts::default();
    for word in words {
        parts.take(heap, word)?;
    }
    Ok(parts)
}

fn load(heap: Global, parts: &Parts) -> Result<Command, Failed<BadCommand>>
    ensures value { IfOk result Loads }
{
    if !parts.has(Part::Imsi) {
        return Err(BadCommand::NoImsi.into());
    }
    match Card::from_fields(&parts.fields()) {
        Ok(card) => Ok(one_step(heap, Step::Load(card))?),
        Err(fault) => Ok(Command::Refused(fault)),
    }
}

fn write(heap: Global, parts: &Parts) -> Result<Command, AllocError>
    ensures value { IfOk result Writes }
{
    match Card::from_fields(&parts.fields()) {
        Ok(card) => writes(heap, parts, &card),
        Err(fault) => Ok(Command::Refused(fault)),
    }
}

fn plmn_in(heap: Global, text: &str) -> Result<Plmn, Failed<BadCommand>>
    ensures value { UnlessShort result (λ r. r ≡ ok_or (plmn_given text.now) BadPlmn) }
{
    let fault = BadCommand::BadPlmn;
    let octets = Items { heap, fault }.octets(text)?;
    Ok(Plmn::from_octets(octets).ok_or(fault)?)
}

fn image_in(heap: Global, text: &str) -> Result<[u8; 48], Failed<BadCommand>>
    ensures value { UnlessShort result (λ r. r ≡ ok_or (octets_in 48 (octets_or_none text.now)) BadImage) }
{
    let fault = BadCommand::BadImage;
    Items { heap, fault }.octets(text)
}

// What a verb other than `load` and `write` asks for with the words behind it; two of these are told as a word too many.
fn short_command(heap: Global, verb: Verb, words: &[&str]) -> Result<Command, Failed<BadCommand>>
    ensures value { UnlessShort result (Asks verb (map (λ word. word.now) words.now)) }
{
    match (verb, words) {
        (Verb::Eject, []) => Ok(one_step(heap, Step::Eject)?),
        (Verb::Damage, []) => Ok(Command::Damage),
        (Verb::Show, []) => Ok(Command::Show),
        (Verb::Octets, [image]) => Ok(Command::Octets(image_in(heap, image)?)),
        (Verb::Copy, [store]) => Ok(Command::CopyInto(store.parse()?)),
        (Verb::Forbid, [plmn]) => Ok(one_step(heap, Step::Forbid(plmn_in(heap, plmn)?))?),
        (Verb::Permit, [plmn]) => Ok(one_step(heap, Step::Permit(plmn_in(heap, plmn)?))?),
        (Verb::Octets | Verb::Copy | Verb::Forbid | Verb::Permit, []) => {
            Err(BadCommand::MissingWord.into())
        }
        _ => Err(BadCommand::ExtraWord.into()),
    }
}

// What a verb asks for with the words behind it, of which no more are looked at than it needs.
fn command_of(
    heap: Global,
    verb: Verb,
    mut words: SplitWhitespace<'_>,
) -> Result<Command, Failed<BadCommand>>
    ensures value { UnlessShort result (λ r. OfWords words.entry (λ all. Asks verb all r)) }
{
    match verb {
        Verb::Load => load(heap, &parts_in(heap, words)?),
        Verb::Write => Ok(write(heap, &parts_in(heap, words)?)?),
        verb => match (words.next(), words.next()) {
            (None, _) => short_command(heap, verb, &[]),
            (Some(word), None) => short_command(heap, verb, &[word]),
            (Some(word), Some(more)) => short_command(heap, verb, &[word, more]),
        },
    }
}

// What the words of a line ask for, or why they are not understood.
fn asked(heap: Global, mut words: SplitWhitespace<'_>) -> Result<Command, Failed<BadCommand>>
    ensures value { UnlessShort result (λ r. OfWords words.entry (λ all. AsksWords all r)) }
{
    match words.next() {
        None => Ok(Command::Blank),
        Some(verb) => command_of(heap, verb.parse()?, words),
    }
}

// The command of a line.
pub fn command_in(heap: Global, line: &str) -> Result<Command, AllocError>
    ensures value { IfOk result (AsksFor line.now) }
{
    match asked(heap, words_in(line)) {
        Ok(command) => Ok(command),
        Err(failed) => Ok(Command::Bad(failed.reason()?)),
    }
}
