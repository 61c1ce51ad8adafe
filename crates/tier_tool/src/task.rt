//! What a line asks of the base: the part of the script language that is carried out so far.
ghost use Rattle.std.specs.Prelude.{◌≡◌, map, MatchResult};
ghost use Rattle.tier_tool.specs.Tasks.{AsksFor, Refuses, as_line};

use obj_model::{Name, Req, Vector};
use script_lang::Line;
use std::alloc::Global;

/// What a line asks.
#[derive(Debug, Drop)]
pub enum Task {
    /// A client's write request.
    Op(Req),
    /// A client's read of a name.
    Get {
        client: u16,
        name: Name,
        vector: Vector,
    },
}

/// What the line of this number asks.
#[derive(Debug, Drop)]
pub struct Numbered {
    pub number: u32,
    pub line: Task,
}

/// Why the lines of a script are not carried out.
#[derive(Clone, Copy, Debug, PartialEq, Eq)]
pub enum Untold {
    /// The line of this number, the first such one, has a verb that is not built yet.
    Unbuilt { line: u32 },
    /// There was not enough memory.
    NoMemory,
}

// What a line asks, where its verb is built.
fn task_of(line: Line) -> Option<Task>
    ensures { AsksFor line result }
{
    match line {
        Line::Op(req) => Some(Task::Op(req)),
        Line::Get {
            client,
            name,
            vector,
        } => Some(Task::Get {
            client,
            name,
            vector,
        }),
        _ => None,
    }
}

/// What lines ask, where all of their verbs are built.
pub fn tasks_of(alloc: Global, lines: Vec<script_lang::Numbered>) -> Result<Vec<Numbered>, Untold>
    ensures { MatchResult result
        (λ tasks. lines.items ≡ map as_line tasks.items)
        (λ untold. Refuses lines.items untold) }
{
    let mut tasks = Vec::new(alloc);
    for numbered in lines {
        let number = numbered.number;
        match task_of(numbered.line) {
            Some(line) => {
                if tasks.push(Numbered { number, line }).is_err() {
                    return Err(Untold::NoMemory);
                }
            }
            None => return Err(Untold::Unbuilt { line: number }),
        }
    }
    Ok(tasks)
}
