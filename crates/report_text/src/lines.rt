//! The texts of lines and of acts.
ghost use Rattle.std.specs.Prelude.{◌≡◌, ◌++◌, OnOk, Option};
ghost use Rattle.report_text.specs.Lines.{act_text, all_told_text, call_text, line_text, told_text, way_text};

use crate::answers::put_answer;
use crate::words::{path_word, put_name, put_number, put_reply};
use crate::{Text, Told};
use obj_model::{NoMemory, Path};
use script_lang::mode_word;
use tier_chron::{Act, Answer};

/// Puts the text of a line behind a text: its number, what it is told of each group, joined with `
/// ; `, and a newline. With `paths` each answer that has a path is followed by it.
pub fn answer_text(
    text: &mut Text,
    number: u32,
    told: &[Told<'_>],
    paths: bool,
) -> Result<(), NoMemory>
    ensures { OnOk result (text.new ≡ text.old ++ line_text paths number told.now) }
{
    text.push_number(u64::from(number))?;
    text.push(" ")?;
    put_all(text, told, paths)?;
    text.push("\n")
}

/// Puts the line of a client's call that one group answered behind a text, without its path.
pub fn put_call(text: &mut Text, number: u32, answer: &Answer, place: u64) -> Result<(), NoMemory>
    ensures { OnOk result (text.new ≡ text.old ++ call_text number place answer.now) }
{
    text.push_number(u64::from(number))?;
    text.push(" ")?;
    put_answer(text, answer, place)?;
    text.push("\n")
}

/// Puts the text of an act behind a text: its group, its number counted from 1, its request's id,
/// and its reply.
pub fn put_act(text: &mut Text, group: u32, number: u64, act: &Act) -> Result<(), NoMemory>
    ensures { OnOk result (text.new ≡ text.old ++ act_text group number act.now) }
{
    text.push("act")?;
    put_number(text, u64::from(group))?;
    put_number(text, number)?;
    put_number(text, u64::from(act.req.client))?;
    put_number(text, act.req.tid)?;
    put_name(text, &act.req.name)?;
    text.push(" ")?;
    put_reply(text, act.reply)?;
    text.push("\n")
}

// What a line is told of all groups.
fn put_all(text: &mut Text, told: &[Told<'_>], paths: bool) -> Result<(), NoMemory>
    ensures { OnOk result (text.new ≡ text.old ++ all_told_text paths told.now) }
{
    let Some((first, others)) = told.split_first() else {
        return Ok(());
    };
    put_told(text, first, paths)?;
    for next in others {
        text.push(" ; ")?;
        put_told(text, next, paths)?;
    }
    Ok(())
}

// What a line is told of one group.
fn put_told(text: &mut Text, told: &Told<'_>, paths: bool) -> Result<(), NoMemory>
    ensures { OnOk result (text.new ≡ text.old ++ told_text paths told.now) }
{
    match told {
        Told::Answered {
            answer,
            path,
            place,
        } => {
            put_answer(text, answer, *place)?;
            put_way(text, *path, paths)
        }
        Told::Mode { mode } => {
            text.push("mode ")?;
            text.push(mode_word(*mode))
        }
        Told::Time { moment } => {
            text.push("time")?;
            put_number(text, *moment)
        }
        Told::CacheStopped { epoch } => {
            text.push("stopped cache epoch")?;
            put_number(text, *epoch)
        }
        Told::BaseStopped => text.push("stopped base"),
    }
}

// The path, where there is one and it is asked for.
fn put_way(text: &mut Text, path: Option<Path>, paths: bool) -> Result<(), NoMemory>
    ensures { OnOk result (text.new ≡ text.old ++ way_text paths path) }
{
    match (paths, path) {
        (true, Some(path)) => {
            text.push(" ")?;
            text.push(path_word(path))
        }
        _ => Ok(()),
    }
}
