//! Where a line stands: behind which moment, and in which block.
ghost use Rattle.std.specs.Prelude.{◌≡◌, ◌<◌, OnOk};
ghost use Rattle.script_lang.specs.Contexts.{has_end, has_room, is_among, is_in_place, joined, moved, start};
ghost use Rattle.script_lang.specs.Scripts.{lines_of};

use crate::Line;
use crate::split::first_line;
use obj_model::NoMemory;
use std::alloc::Global;
use std::marker::Model;

/// The most clients of a block.
const CLIENTS_LIMIT: usize = 16;

/// The moment that was set last, and in a block the clients of its lines so far.
#[derive(Drop)]
pub(crate) struct Context {
    moment: u64,
    block: Option<Vec<u16>>,
}

impl Model for Context {
    ghost use Rattle.std.specs.Option.{option_map};
    ghost use Rattle.script_lang.specs.Contexts.{Context, coded_context};

    ghost Value = { Context };

    ghost coded = { coded_context };

    ghost view = { λ c. record { moment = c.moment; block = option_map (λ v. v.items) c.block } };
}

impl Context {
    /// Before the first line.
    pub(crate) fn start() -> Context
        ensures { result ≡ start }
    {
        Context {
            moment: 0,
            block: None,
        }
    }

    /// The moment that was set last.
    pub(crate) fn moment(&self) -> u64
        ensures { result ≡ self.now.moment }
    {
        self.moment
    }

    /// Whether the line may stand here, with this text behind it. What stands behind a line counts
    /// for the beginning of a block alone, which is looked through up to its end.
    pub(crate) fn has_place_for(&self, line: &Line, text: &[u8]) -> bool
        ensures { result ≡ is_in_place self.now.block (lines_of text.now) line.now }
    {
        match (&self.block, line) {
            (None, Line::Par) => has_end(text),
            (None, Line::End) => false,
            (None, _) => true,
            (Some(clients), Line::Op(req)) => has_room(clients.as_slice(), req.client),
            (Some(clients), Line::Get { client, .. }) => has_room(clients.as_slice(), *client),
            (Some(_), Line::End) => true,
            (Some(_), _) => false,
        }
    }

    /// Goes on behind the line.
    pub(crate) fn move_behind(&mut self, alloc: Global, line: &Line) -> Result<(), NoMemory>
        ensures { OnOk result (self.new ≡ moved self.old line.now) }
    {
        match line {
            Line::Op(req) => self.join(req.client)?,
            Line::Get { client, .. } => self.join(*client)?,
            Line::SetTime(moment) => self.moment = *moment,
            Line::Par => self.block = Some(Vec::new(alloc)),
            Line::End => self.block = None,
            _ => {}
        }
        Ok(())
    }

    // Counts the client among those of the block, if there is one.
    fn join(&mut self, client: u16) -> Result<(), NoMemory>
        ensures moment { OnOk result (self.new.moment ≡ self.old.moment) }
        ensures block { OnOk result (self.new.block ≡ joined client self.old.block) }
    {
        match &mut self.block {
            Some(clients) if !is_among(clients.as_slice(), client) => {
                clients.push(client)?;
                Ok(())
            }
            _ => Ok(()),
        }
    }
}

fn is_among(clients: &[u16], client: u16) -> bool
    ensures { result ≡ is_among client clients.now }
{
    clients.iter().any(|other| *other == client)
}

fn has_room(clients: &[u16], client: u16) -> bool
    ensures { result ≡ has_room client clients.now }
{
    is_among(clients, client) || clients.len() < CLIENTS_LIMIT
}

// Whether a line of the text ends a block.
fn has_end(text: &[u8]) -> bool
    ensures { result ≡ has_end (lines_of text.now) }
{
    let mut rest = text;
    while !rest.is_empty() {
        let (line, others) = first_line(rest);
        if line == b"end".as_slice() {
            return true;
        }
        rest = others;
    }
    false
}
