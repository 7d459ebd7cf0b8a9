// The `write` line: the word, the message, and its fields.
ghost use Rattle.std.specs.Prelude.{◌≡◌, IfOk};
ghost use Rattle.spelling.specs.Failed.{UnlessShort};
ghost use Rattle.spelling.specs.Words.{OfWords};
ghost use Rattle.lines.specs.Writes.{AsksMessage, AsksToWrite, Makes, TakesAll, Writes, no_fields, unsent_imsi};

use crate::fields::{Fields, message_of, terminal_of};
use crate::words::Kind;
use answers::{BadLine, Line};
use frames::Uplink;
use identities::Imsi;
use spelling::{Failed, words_in};
use std::alloc::{AllocError, Global};
use std::str::SplitWhitespace;

// A routing area update request carries no identity, so that a line may leave the IMSI out.
fn unsent_imsi(kind: Kind) -> Option<Imsi>
    ensures value { result ≡ unsent_imsi kind }
{
    match kind {
        Kind::Update => Imsi::from_digits(&[0; 15]),
        _ => None,
    }
}

// The fields that the words of a line give to a message.
fn fields_in(
    heap: Global,
    kind: Kind,
    words: SplitWhitespace<'_>,
) -> Result<Fields, Failed<BadLine>>
    ensures value { UnlessShort result (λ r. OfWords words.entry (λ all. TakesAll kind no_fields all r)) }
{
    let mut fields = Fields::default();
    for word in words {
        fields.take(heap, kind, word)?;
    }
    Ok(fields)
}

// The message that its fields make.
fn made(kind: Kind, fields: Fields) -> Result<Uplink, BadLine>
    ensures value { Makes kind fields result }
{
    let imsi = fields.imsi.or(unsent_imsi(kind));
    let fields = Fields { imsi, ..fields };
    message_of(kind, &fields, terminal_of(&fields))
}

// The message that the words behind `write` ask for.
fn message_in(heap: Global, mut words: SplitWhitespace<'_>) -> Result<Uplink, Failed<BadLine>>
    ensures value { UnlessShort result (λ r. OfWords words.entry (λ all. AsksMessage all r)) }
{
    let Some(kind) = words.next() else {
        return Err(BadLine::UnknownMessage.into());
    };
    let kind = kind.parse()?;
    Ok(made(kind, fields_in(heap, kind, words)?)?)
}

// The message that the words of a line ask for.
fn asked(heap: Global, mut words: SplitWhitespace<'_>) -> Result<Uplink, Failed<BadLine>>
    ensures value { UnlessShort result (λ r. OfWords words.entry (λ all. AsksToWrite all r)) }
{
    match words.next() {
        Some("write") => message_in(heap, words),
        _ => Err(BadLine::UnknownCommand.into()),
    }
}

// The message that a line asks for, or why there is none.
pub(crate) fn write_line(heap: Global, text: &str) -> Result<Line, AllocError>
    ensures value { IfOk result (Writes text.now) }
{
    match asked(heap, words_in(text)) {
        Ok(message) => Ok(Line::Write(message)),
        Err(failed) => Ok(Line::Bad(failed.reason()?)),
    }
}
