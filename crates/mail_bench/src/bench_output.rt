//! The program's output if its command line asks for no measurement, or a run ends early.

ghost use Rattle.std.specs.Prelude.{IfOk, map};
ghost use Rattle.clap.specs.Words.{matches_of};
ghost use Rattle.mail_bench.specs.Options.{Asks, IsPlainText, bench_words};

use crate::fault::BenchFault;
use crate::settings::{Settings, SettingsFault, UsageFault, is_out_of_memory, read_settings};
use clap::Error;
use std::convert::AsStr;
use std::io::Eprint;

/// Reads the words of a command line as `read_settings` does. If they ask for no measurement,
/// prints why, or the help that they ask for, and returns the program's status in `Err`: 0 after
/// help, 2 if the words are wrong, 1 if memory ran out or nothing could be printed.
pub fn settings_or_status<'a, R: Print + Eprint + AllocGlobal>(
    rt: &R,
    words: &'a [String],
) -> Result<Settings<'a>, u8>
    ensures asked { IfOk result (λ settings. Asks
        (matches_of bench_words (map ⟦<String as AsStr>⟧.text words.entry.now)) settings) }
    ensures plain { IfOk result (λ settings. IsPlainText settings.user.now
        × IsPlainText settings.pass.now × IsPlainText settings.mailbox.now) }
{
    match read_settings(rt.alloc(), words) {
        Ok(settings) => Ok(settings),
        Err(why) => Err(explain(rt, why)),
    }
}

/// Prints what is wrong with the command line, or the help that it asked for.
fn explain<R: Print + Eprint>(rt: &R, why: SettingsFault<'_>) -> u8 {
    match why {
        SettingsFault::Words(error) => explain_words(rt, error),
        SettingsFault::Usage(why) => print_usage(rt, why),
    }
}

/// Prints which value can't be used, and returns the program's status.
fn print_usage<R: Eprint>(rt: &R, why: UsageFault<'_>) -> u8 {
    let printed = match why {
        UsageFault::BadWorkload(word) => eprintln!(rt; "usage: no workload {word}"),
        UsageFault::BadText(word) => eprintln!(rt; "usage: --{word} takes printable ASCII"),
    };
    match printed {
        Ok(()) => 2,
        Err(_) => 1,
    }
}

/// Prints why the run ended early, and returns the program's status.
pub fn print_fault<R: Eprint>(rt: &R, fault: BenchFault) -> u8 {
    let _ = eprintln!(rt; "mail_bench: {fault}");
    1
}

fn explain_words<R: Print + Eprint>(rt: &R, error: Error) -> u8 {
    if is_out_of_memory(&error) {
        return print_fault(rt, BenchFault::NoMemory);
    }
    let is_help = !error.use_stderr();
    let printed = if is_help {
        rt.print(error)
    } else {
        rt.eprint(error)
    };
    match printed {
        Ok(()) if is_help => 0,
        Ok(()) => 2,
        Err(_) => 1,
    }
}
