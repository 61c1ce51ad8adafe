//! The texts of why a script or a disk is refused, and of a script that is accepted.
ghost use Rattle.std.specs.Prelude.{◌≡◌, ◌++◌, OnOk};
ghost use Rattle.report_text.specs.Faults.{accepted_text, bad_image_text, cause_text, fault_text};
ghost use Rattle.report_text.specs.Faults.{image_text, unbuilt_text, wrong_pair_text};

use crate::Text;
use crate::words::{pool_word, put_number};
use obj_model::{NoMemory, Pool};
use script_lang::Cause;

/// Puts the fault of a script behind a text: its first wrong line, and why that is wrong.
pub fn put_fault(text: &mut Text, line: u32, cause: &Cause) -> Result<(), NoMemory>
    ensures { OnOk result (text.new ≡ text.old ++ fault_text line cause.now) }
{
    text.push("script ")?;
    text.push_number(u64::from(line))?;
    text.push(" ")?;
    put_cause(text, cause)?;
    text.push("\n")
}

/// Puts the first line of a verb that is not carried out yet behind a text.
pub fn put_unbuilt(text: &mut Text, line: u32) -> Result<(), NoMemory>
    ensures { OnOk result (text.new ≡ text.old ++ unbuilt_text line) }
{
    text.push("script ")?;
    text.push_number(u64::from(line))?;
    text.push(" unbuilt\n")
}

/// Puts behind a text that a script is accepted, with so many lines that are neither blank nor
/// comments.
pub fn put_accepted(text: &mut Text, lines: u64) -> Result<(), NoMemory>
    ensures { OnOk result (text.new ≡ text.old ++ accepted_text lines) }
{
    text.push("ok ")?;
    text.push_number(lines)?;
    text.push("\n")
}

/// Puts behind a text that the disk of a group's pool holds no log of that pool, by the offset of
/// what is wrong.
pub fn put_bad_image(text: &mut Text, pool: Pool, group: u32, at: u64) -> Result<(), NoMemory>
    ensures { OnOk result (text.new ≡ text.old ++ bad_image_text pool group at) }
{
    put_image(text, pool, group)?;
    text.push(" bad")?;
    put_number(text, at)?;
    text.push("\n")
}

/// Puts behind a text that the disk of a group's pool is of another pair than the one wanted.
pub fn put_wrong_pair(
    text: &mut Text,
    pool: Pool,
    group: u32,
    found: u64,
    want: u64,
) -> Result<(), NoMemory>
    ensures { OnOk result (text.new ≡ text.old ++ wrong_pair_text pool group found want) }
{
    put_image(text, pool, group)?;
    text.push(" pair")?;
    put_number(text, found)?;
    put_number(text, want)?;
    text.push("\n")
}

// A disk, by its pool and its group.
fn put_image(text: &mut Text, pool: Pool, group: u32) -> Result<(), NoMemory>
    ensures { OnOk result (text.new ≡ text.old ++ image_text pool group) }
{
    text.push("image ")?;
    text.push(pool_word(pool))?;
    put_number(text, u64::from(group))
}

// Why a line is wrong.
fn put_cause(text: &mut Text, cause: &Cause) -> Result<(), NoMemory>
    ensures { OnOk result (text.new ≡ text.old ++ cause_text cause.now) }
{
    match cause {
        Cause::LeftOut(word) => {
            text.push("left-out ")?;
            text.push_bytes(word.as_slice())
        }
        Cause::Mixed(place) => {
            text.push("mixed ")?;
            text.push_number(*place as u64)
        }
        Cause::Byte => text.push("byte"),
        Cause::Words => text.push("words"),
        Cause::Verb => text.push("verb"),
        Cause::Subop => text.push("subop"),
        Cause::Mode => text.push("mode"),
        Cause::Number => text.push("number"),
        Cause::Client => text.push("client"),
        Cause::Name => text.push("name"),
        Cause::Hex => text.push("hex"),
        Cause::Many => text.push("many"),
        Cause::Heavy => text.push("heavy"),
        Cause::Time => text.push("time"),
        Cause::Par => text.push("par"),
        Cause::Long => text.push("long"),
        Cause::Lines => text.push("lines"),
    }
}
