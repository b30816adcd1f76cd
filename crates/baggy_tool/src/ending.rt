//! How a call of the tool ends.
ghost use Rattle.std.specs.Prelude.{◌≡◌};
ghost use Rattle.baggy_tool.specs.Endings.{status_of, ending_of};

use bb_driver::error::CompileError;
use bb_words::kinds::{ReportKind, TrapKind};
use rv_image::error::ImageError;
use rv_image::image::Image;
use rv_machine::stop::Stop;

/// Why a file was refused.
#[derive(Debug, Drop)]
pub enum Refusal {
    /// The source has no image. No refusal holds the compiler's want of memory, or that the program is not built.
    Source(CompileError),
    /// The bytes are no image. No refusal holds `ImageError::Memory`.
    Image(ImageError),
    /// The source is accepted, and its program has a form that is not built.
    NotBuilt,
}

/// How a call ended.
#[derive(Debug, Drop)]
pub enum Ending {
    /// The program exited with this status.
    Exited(u8),
    /// The program, or its environment, reported at this line.
    Reported { kind: ReportKind, line: u32 },
    /// An instruction of the program could not be executed.
    Trapped { kind: TrapKind },
    /// All instructions that were allowed were executed, and the program had not ended.
    OutOfSteps,
    /// The image was written.
    Wrote,
    /// The source is accepted.
    Checked,
    /// The file was refused.
    Refused { error: Refusal },
    /// The words say nothing that the tool does.
    Usage,
    /// There is no such file.
    NoFile,
    /// The file could not be read or written.
    FileFault,
    /// The input failed.
    ReadFault,
    /// The output failed.
    WriteFault,
    /// The notes failed.
    NoteFault,
    /// Memory was wanting.
    NoMemory,
}

/// The answer of a call.
#[derive(Debug, Drop)]
pub struct Ended {
    /// The status of the process: that of the program, or one of 121 to 127.
    pub status: u8,
    /// How the call ended.
    pub ending: Ending,
    /// The image that this call compiled or read, where it came to its run or to the write of its file.
    pub image: Option<Image>,
}

/// The status of an ending.
pub(crate) fn status_of(ending: &Ending) -> u8
    ensures { result ≡ status_of ending.now }
{
    match ending {
        Ending::Exited(status) => *status,
        Ending::Reported { .. } => 121,
        Ending::Trapped { .. } => 122,
        Ending::OutOfSteps => 123,
        Ending::Wrote | Ending::Checked => 0,
        Ending::Refused { .. } => 124,
        Ending::Usage => 125,
        Ending::NoFile
        | Ending::FileFault
        | Ending::ReadFault
        | Ending::WriteFault
        | Ending::NoteFault => 126,
        Ending::NoMemory => 127,
    }
}

/// How a call ends whose run came back so.
pub(crate) fn ending_of(stop: Stop) -> Ending
    ensures { result ≡ ending_of stop }
{
    match stop {
        Stop::Exited(status) => Ending::Exited(status),
        Stop::Reported { kind, line } => Ending::Reported { kind, line },
        Stop::Trapped { kind } => Ending::Trapped { kind },
        Stop::OutOfSteps => Ending::OutOfSteps,
        Stop::ReadFault => Ending::ReadFault,
        Stop::WriteFault => Ending::WriteFault,
    }
}
