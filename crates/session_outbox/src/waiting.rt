//! How a line goes on when something holds the keys that it asks for: it asks the holder's coordinator,
//! passes the decision on to its own shard, or sleeps until there is one.

ghost use Rattle.std.specs.Prelude.{◌≡◌, ◌+◌, ◌<◌, ◌++◌, length, get_or};
ghost use Rattle.rss_tables.specs.Lines.{no_line, in_state, with_line, blocked_state, blocked_outs, decision_request, resolving_state, resolving_outs, sleeping_state, woken_state, woken_outs};

use crate::outbox::Outbox;
use rss_names::Attempt;
use rss_tables::LineState;
use rss_wire::{Holder, Outcome, Request};
use shard_lines::Lines;

/// A line that is in somebody's way asks for the first one's decision. Takes no memory.
pub fn block(lines: &mut Lines, at: usize, holders: &[Holder], out: &mut Outbox)
    requires line { at < length lines.old.lines }
    requires room { 0 < out.old.room }
    ensures after { lines.new ≡ record lines.old { lines = with_line lines.old.lines (in_state (get_or lines.old.lines at no_line) (blocked_state holders.now)) } }
    ensures outs { out.new.outs ≡ out.old.outs ++ blocked_outs (get_or lines.old.lines at no_line).shard holders.now }
{
    match holders.first() {
        None => lines.set_state(at, LineState::Awaiting),
        Some(holder) => {
            out.inquire(lines.shard(at), holder);
            lines.set_state(at, LineState::Inquiring(*holder));
        }
    }
}

/// A line that was told a decision passes it on to its own shard. Takes no memory.
pub fn resolve(lines: &mut Lines, at: usize, outcome: Outcome, out: &mut Outbox)
    requires line { at < length lines.old.lines }
    requires room { 0 < out.old.room }
    ensures after { lines.new ≡ record lines.old { lines = with_line lines.old.lines (in_state (get_or lines.old.lines at no_line) (resolving_state (get_or lines.old.lines at no_line).state outcome)) } }
    ensures outs { out.new.outs ≡ out.old.outs ++ resolving_outs (get_or lines.old.lines at no_line).shard (get_or lines.old.lines at no_line).state outcome }
{
    let state = lines.state(at);
    match state {
        LineState::Inquiring(holder) => {
            out.ask(lines.shard(at), decision_as(holder.attempt, outcome));
            lines.set_state(at, LineState::Resolving(holder, outcome));
        }
        LineState::Awaiting => lines.set_state(at, LineState::Awaiting),
        LineState::Answered => lines.set_state(at, LineState::Answered),
        LineState::Resolving(holder, found) => lines.set_state(
            at,
            LineState::Resolving(holder, found),
        ),
        LineState::Asleep(holder) => lines.set_state(at, LineState::Asleep(holder)),
        LineState::Dropped => lines.set_state(at, LineState::Dropped),
    }
}

/// A line that was told that nothing is decided yet sleeps.
pub fn sleep(lines: &mut Lines, at: usize)
    requires line { at < length lines.old.lines }
    ensures { lines.new ≡ record lines.old { lines = with_line lines.old.lines (in_state (get_or lines.old.lines at no_line) (sleeping_state (get_or lines.old.lines at no_line).state)) } }
{
    let state = lines.state(at);
    match state {
        LineState::Inquiring(holder) => lines.set_state(at, LineState::Asleep(holder)),
        LineState::Awaiting => lines.set_state(at, LineState::Awaiting),
        LineState::Answered => lines.set_state(at, LineState::Answered),
        LineState::Resolving(holder, found) => lines.set_state(
            at,
            LineState::Resolving(holder, found),
        ),
        LineState::Asleep(holder) => lines.set_state(at, LineState::Asleep(holder)),
        LineState::Dropped => lines.set_state(at, LineState::Dropped),
    }
}

/// A sleeping line asks again; any other stays as it is. Takes no memory.
pub fn wake(lines: &mut Lines, at: usize, out: &mut Outbox)
    requires line { at < length lines.old.lines }
    requires room { 0 < out.old.room }
    ensures after { lines.new ≡ record lines.old { lines = with_line lines.old.lines (in_state (get_or lines.old.lines at no_line) (woken_state (get_or lines.old.lines at no_line).state)) } }
    ensures outs { out.new.outs ≡ out.old.outs ++ woken_outs (get_or lines.old.lines at no_line).shard (get_or lines.old.lines at no_line).state }
{
    let state = lines.state(at);
    match state {
        LineState::Asleep(holder) => {
            out.inquire(lines.shard(at), &holder);
            lines.set_state(at, LineState::Inquiring(holder));
        }
        LineState::Awaiting => lines.set_state(at, LineState::Awaiting),
        LineState::Answered => lines.set_state(at, LineState::Answered),
        LineState::Inquiring(holder) => lines.set_state(at, LineState::Inquiring(holder)),
        LineState::Resolving(holder, found) => lines.set_state(
            at,
            LineState::Resolving(holder, found),
        ),
        LineState::Dropped => lines.set_state(at, LineState::Dropped),
    }
}

/// A decision as a request to a shard that holds its attempt.
pub fn decision_as(attempt: Attempt, outcome: Outcome) -> Request
    ensures { result ≡ decision_request attempt outcome }
{
    match outcome {
        Outcome::Committed(commit_time) => Request::Commit {
            attempt,
            commit_time,
        },
        Outcome::Aborted => Request::Abort { attempt },
    }
}
