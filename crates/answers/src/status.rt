//! How a command ended.

ghost use Rattle.std.specs.Prelude.{◌≡◌};
ghost use Rattle.answers.specs.Exits.{exit_of};

use script::ScriptError;

/// How `simulate` ended. Beside each: its exit number, and the line that names it on the output, if there is one.
#[derive(Clone, Copy, PartialEq, Eq, Debug)]
pub enum Status {
    /// 0: the defined answer was put.
    Done,
    /// 1, `differs LINE`: a report differs, first at this line of it, from the serial replay of what it lists.
    Differs(u32),
    /// 2, `error usage`: the words are no command.
    Usage,
    /// 3, `error script LINE CAUSE`: the input's first line that is refused, and its first cause.
    Script(ScriptError),
    /// 3, `error packed PLACE`: the bytes are no packed set, first at this offset.
    Packed(u32),
    /// 3, `error report LINE`: what stands behind the script is no report, first at this line of it.
    Report(u32),
    /// 4, `error read`: the source failed.
    ReadFault,
    /// 5, with no line: the sink failed.
    WriteFault,
    /// 6, `error memory`: memory ran out, before anything was put.
    NoMemory,
    /// 7, `error device`: the device lost a call.
    DeviceLost,
    /// 8, `error image blank`, `error image damaged PLACE` or `error image worn`: the device holds no state to go on from.
    /// Nothing was written.
    Image(ImageFault),
    /// 9, `error small NEED LEN`: the device has fewer words than the set needs. Nothing was written.
    Small {
        /// How many words the set needs.
        need: u32,
        /// How many words the device has.
        len: u32,
    },
}

/// Why the words of a device hold no state to go on from.
#[derive(Clone, Copy, PartialEq, Eq, Debug)]
pub enum ImageFault {
    /// Nothing was formatted.
    Blank,
    /// The first faulty word is at this place.
    Damaged(u32),
    /// The state's numbers have come too near the end of their type.
    Worn,
}

impl Status {
    /// The exit number of a program that ends so.
    pub fn code(self) -> u8
        ensures { result ≡ exit_of self }
    {
        match self {
            Status::Done => 0,
            Status::Differs(_) => 1,
            Status::Usage => 2,
            Status::Script(_) | Status::Packed(_) | Status::Report(_) => 3,
            Status::ReadFault => 4,
            Status::WriteFault => 5,
            Status::NoMemory => 6,
            Status::DeviceLost => 7,
            Status::Image(_) => 8,
            Status::Small { .. } => 9,
        }
    }
}
