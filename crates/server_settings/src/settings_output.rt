//! What the program prints if its command line gives no settings.

ghost use Rattle.std.specs.Prelude.{IfOk, map};
ghost use Rattle.clap.specs.Words.{matches_of};
ghost use Rattle.server_settings.specs.CommandLines.{NamesSettings};
ghost use Rattle.server_settings.specs.Options.{server_words};

use crate::settings::{CommandLine, SettingsFault, UsageFault, is_out_of_memory, read_settings};
use clap::Error;
use std::convert::AsStr;

/// Reads the words of a command line as `read_settings` does. If they give no settings, prints the
/// reason, or the help or the version that they ask for, and returns the program's status: 0 after
/// help or the version, 2 if the words are wrong, 1 if memory ran out or nothing could be printed.
pub fn settings_or_status<'a, R: Print + AllocGlobal>(
    rt: &R,
    words: &'a [String],
) -> Result<CommandLine<'a>, u8>
    ensures { IfOk result (NamesSettings
        (matches_of server_words (map ⟦<String as AsStr>⟧.text words.entry.now))) }
{
    match read_settings(rt.alloc(), words) {
        Ok(settings) => Ok(settings),
        Err(why) => Err(explain(rt, why)),
    }
}

/// Prints what is wrong with the command line, or the help or the version that it asks for, and
/// returns the status.
fn explain<R: Print>(rt: &R, why: SettingsFault<'_>) -> u8 {
    match why {
        SettingsFault::Words(error) => explain_words(rt, error),
        SettingsFault::Usage(UsageFault::NoMemory) => print_fault(rt),
        SettingsFault::Usage(why) => print_usage(rt, why),
    }
}

/// Prints that the program can't run, and returns its status, 1.
pub fn print_fault<R: Print>(rt: &R) -> u8 {
    let _ = println!(rt; "run fault");
    1
}

fn print_usage<R: Print>(rt: &R, why: UsageFault<'_>) -> u8 {
    match println!(rt; "{why}") {
        Ok(()) => 2,
        Err(_) => 1,
    }
}

fn explain_words<R: Print>(rt: &R, error: Error) -> u8 {
    if is_out_of_memory(&error) {
        return print_fault(rt);
    }
    let status = if error.use_stderr() { 2 } else { 0 };
    match rt.print(error) {
        Ok(()) => status,
        Err(_) => 1,
    }
}
