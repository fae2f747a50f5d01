//! A device in a file: which words of a call name it, and how the program ends where it fails.

ghost use Rattle.std.specs.Prelude.{◌≡◌, map, option_map};
ghost use Rattle.std.specs.Process.{exit_status};
ghost use Rattle.std.specs.Rc.{rc_str_bytes};
ghost use Rattle.nv_cli.specs.Images.{command_part, exit_unready, image_path, line_unready, no_memory, not_kept, unloaded};

use image_file::{LoadFault, Unstored};
use nv_base::NoMemory;
use std::process::ExitCode;
use std::rc::RcStr;

/// The word that a path follows.
const FLAG: &str = "--image";

/// Why a call had no device, or its device is not kept.
#[derive(Clone, Copy, Debug, PartialEq, Eq)]
pub enum Unready {
    /// 10, `error image read`: the file cannot be read.
    Read,
    /// 19, `error image size`: the file has another length than a device.
    Size,
    /// 20, `error image write`: the device could not be written back.
    Write,
    /// 6, `error memory`: there was no memory for the device or for what stands around it.
    NoMemory,
}

impl From<NoMemory> for Unready {
    ghost from_gives = { λ _ why. why ≡ no_memory };

    fn from(_: NoMemory) -> Unready {
        Unready::NoMemory
    }
}

impl From<LoadFault> for Unready {
    ghost from_gives = { λ fault why. why ≡ unloaded fault };

    fn from(fault: LoadFault) -> Unready {
        match fault {
            LoadFault::Read => Unready::Read,
            LoadFault::Size => Unready::Size,
            LoadFault::NoMemory => Unready::NoMemory,
        }
    }
}

impl From<Unstored> for Unready {
    ghost from_gives = { λ _ why. why ≡ not_kept };

    fn from(_: Unstored) -> Unready {
        Unready::Write
    }
}

impl Unready {
    /// The exit status of a program that ends so.
    pub fn exit_code(self) -> ExitCode
        ensures { exit_status result ≡ exit_unready self }
    {
        ExitCode::from(match self {
            Unready::Read => 10u8,
            Unready::Size => 19,
            Unready::Write => 20,
            Unready::NoMemory => 6,
        })
    }

    /// The line on standard error, without its line feed.
    pub fn line(self) -> &'static str
        ensures { result.now ≡ line_unready self }
    {
        match self {
            Unready::Read => "error image read",
            Unready::Size => "error image size",
            Unready::Write => "error image write",
            Unready::NoMemory => "error memory",
        }
    }
}

/// The path of the device's file, where the words name one.
pub fn image_path(words: &[RcStr]) -> Option<&str>
    ensures { option_map (λ p. p.now) result ≡ image_path (map rc_str_bytes words.now) }
{
    match words {
        [flag, path, ..] if flag.as_str() == FLAG => Some(path.as_str()),
        _ => None,
    }
}

/// The words of the command.
pub fn command_part(words: &[RcStr]) -> &[RcStr]
    ensures { map rc_str_bytes result.now ≡ command_part (map rc_str_bytes words.now) }
{
    match words {
        [flag, _, command @ ..] if flag.as_str() == FLAG => command,
        _ => words,
    }
}
