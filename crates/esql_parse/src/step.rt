//! What a lexeme makes of a query that is being read.

ghost use Rattle.std.specs.Prelude.{◌≡◌, ◌≤◌, nat_le, IfOk};
ghost use Rattle.esql_parse.specs.Machine.{inside_at, begun, inside_after, place_of, inside_of, ended, moved, with_word, deeper, step_begin, step_point, step, start, need, pipes};

use crate::written::with_command;
use crate::{Inside, Progress, State, Written};
use esql_commands::{
    CommandEnd, Move, Place, Point, Slot, begin_command, begin_source, continue_command,
    finished_command, line_in,
};
use esql_expr::{Reader, Stepped};
use esql_lex::Sign;
use esql_phrases::{Lexeme, span_at};
use esql_types::Span;
use std::alloc::{AllocError, Global};

fn inside_at(alloc: Global, place: Place) -> Inside
    ensures { result ≡ inside_at place }
{
    match place {
        Place::At(here) => Inside::At(here),
        Place::Expression(slot) => {
            let reader = Reader::new(alloc, line_in(&slot));
            Inside::Open { slot, reader }
        }
    }
}

fn begun(slot: Slot, stepped: Stepped) -> Option<Inside>
    ensures { result ≡ begun slot stepped }
{
    match stepped {
        Stepped::Goes(reader) => Some(Inside::Open { slot, reader }),
        Stepped::Ends { .. } | Stepped::Stuck => None,
    }
}

fn inside_after(alloc: Global, to: Option<Move>) -> Result<Option<Inside>, AllocError>
    ensures { IfOk result (λ inside. inside ≡ inside_after to) }
{
    match to {
        Some(Move::To(place)) => Ok(Some(inside_at(alloc, place))),
        Some(Move::Begins { slot, next }) => {
            let reader = Reader::new(alloc, line_in(&slot));
            let stepped = reader.step(alloc, next)?;
            Ok(begun(slot, stepped))
        }
        None => Ok(None),
    }
}

fn place_of(alloc: Global, before: &Option<Written>, next: Lexeme) -> Option<Place>
    ensures { result ≡ place_of before.now next }
{
    match before {
        None => begin_source(alloc, next),
        Some(_) => begin_command(alloc, next),
    }
}

fn inside_of(alloc: Global, place: Option<Place>) -> Option<Inside>
    ensures { result ≡ inside_of place }
{
    match place {
        Some(place) => Some(inside_at(alloc, place)),
        None => None,
    }
}

// The open command ends: its span is from its word to the last lexeme.
fn ended(
    alloc: Global,
    progress: Progress,
    last: Span,
    inside: Inside,
    says: Option<CommandEnd>,
) -> Result<Option<State>, AllocError>
    ensures { IfOk result (λ more. more ≡ ended progress last inside says) }
{
    let Some(says) = says else {
        return Ok(None);
    };
    let Progress {
        before,
        deepest,
        word,
        last: until,
    } = progress;
    let span = Span {
        from: word.from,
        to: until.to,
    };
    match with_command(alloc, before, says, span)? {
        None => Ok(None),
        Some(written) => Ok(Some(State {
            progress: Progress {
                before: Some(written),
                deepest,
                word,
                last,
            },
            inside,
        })),
    }
}

fn moved(progress: Progress, last: Span, inside: Option<Inside>) -> Option<State>
    ensures { result ≡ moved progress last inside }
{
    match inside {
        Some(inside) => Some(State {
            progress: Progress { last, ..progress },
            inside,
        }),
        None => None,
    }
}

// A command begins with the lexeme.
fn step_begin(alloc: Global, progress: Progress, next: Lexeme) -> Option<State>
    ensures { result ≡ step_begin progress next }
{
    let word = span_at(&next);
    let place = place_of(alloc, &progress.before, next);
    let inside = inside_of(alloc, place);
    moved(Progress { word, ..progress }, word, inside)
}

fn step_point(
    alloc: Global,
    progress: Progress,
    here: Point,
    next: Lexeme,
) -> Result<Option<State>, AllocError>
    ensures { IfOk result (λ more. more ≡ step_point progress here next) }
{
    match next {
        Lexeme::Sign {
            sign: Sign::Bar,
            span,
        } => {
            let says = finished_command(alloc, here)?;
            ended(alloc, progress, span, Inside::Begin, says)
        }
        Lexeme::End { span } => {
            let says = finished_command(alloc, here)?;
            ended(alloc, progress, span, Inside::Done, says)
        }
        next => {
            let last = span_at(&next);
            let to = continue_command(alloc, here, next)?;
            let inside = inside_after(alloc, to)?;
            Ok(moved(progress, last, inside))
        }
    }
}

fn deeper(progress: Progress, depth: u32) -> Progress
    ensures { result ≡ deeper progress depth }
{
    Progress {
        deepest: progress.deepest.max(depth),
        ..progress
    }
}

impl State {
    /// A query of which nothing was read. Takes no memory.
    pub fn start() -> State
        ensures { result ≡ start }
    {
        let nowhere = Span { from: 0, to: 0 };
        State {
            progress: Progress {
                before: None,
                deepest: 0,
                word: nowhere,
                last: nowhere,
            },
            inside: Inside::Begin,
        }
    }

    /// What a lexeme makes of the query, or `None` where no query continues with it. The error is want of memory.
    pub fn step(self, alloc: Global, next: Lexeme) -> Result<Option<State>, AllocError>
        requires { need self ≤ 100 }
        ensures { IfOk result (λ more. more ≡ step self next) }
    {
        let State { progress, inside } = self;
        match inside {
            Inside::Begin => Ok(step_begin(alloc, progress, next)),
            Inside::Open { slot, reader } => {
                let last = span_at(&next);
                match reader.step(alloc, next)? {
                    Stepped::Goes(reader) => {
                        Ok(moved(progress, last, Some(Inside::Open { slot, reader })))
                    }
                    Stepped::Ends { part, next } => {
                        let progress = deeper(progress, part.depth);
                        step_point(alloc, progress, Point::Ended { slot, part }, next)
                    }
                    Stepped::Stuck => Ok(None),
                }
            }
            Inside::At(here) => step_point(alloc, progress, here, next),
            Inside::Done => Ok(None),
        }
    }

    /// Whether the query has no expression deeper than a limit, as far as it was read; however it continues, one is at
    /// least this deep.
    pub fn is_within(&self, limit: u32) -> bool
        ensures { result ≡ nat_le (need self.now) limit }
    {
        let deepest = self.progress.deepest;
        match &self.inside {
            Inside::Open { reader, .. } => deepest <= limit && reader.is_within(limit),
            Inside::At(Point::Stats) => deepest <= limit && 1 <= limit,
            Inside::Begin | Inside::At(_) | Inside::Done => deepest <= limit,
        }
    }

    /// How many `|` were read.
    pub fn pipes(&self) -> usize
        ensures { result ≡ pipes self.now }
    {
        match (&self.progress.before, &self.inside) {
            (None, _) => 0,
            (Some(written), Inside::Done) => written.commands.as_slice().len(),
            (Some(written), _) => 1 + written.commands.as_slice().len(),
        }
    }
}
