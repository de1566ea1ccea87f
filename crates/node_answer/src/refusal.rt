// The lines that report why a node refuses a command.
ghost use Rattle.std.specs.Prelude.{◌≡◌, ◌++◌, codes, string_bytes, IfOk};
ghost use Rattle.node_answer.specs.Refusals.{refusal_line, refusal_of};

use node_command::HandlerError;
use std::alloc::{AllocError, Global};

/// The line that reports a refusal: its number, its name and its detail.
pub fn refusal_line(alloc: Global, why: &HandlerError) -> Result<String, AllocError>
    ensures { IfOk result (λ s. string_bytes s ≡ refusal_line (refusal_of why.now)) }
{
    let line = match why {
        HandlerError::BadStatus(status) => {
            return with_detail(alloc, "4 BadStatus", status.as_str());
        }
        HandlerError::LibDiffers(app) => return with_detail(alloc, "7 LibDiffers", app.as_str()),
        HandlerError::BadFile(path, trouble) => {
            return format!(in alloc; "error handler 8 BadFile {path} {trouble}\n");
        }
        HandlerError::MissingFile(path) => {
            return with_detail(alloc, "9 MissingFile", path.as_str());
        }
        HandlerError::VsnMismatch(path) => {
            return with_detail(alloc, "10 VsnMismatch", path.as_str());
        }
        HandlerError::NoTable(name) => return with_detail(alloc, "11 NoTable", name.as_str()),
        HandlerError::NoSuchRelease => "error handler 1 NoSuchRelease\n",
        HandlerError::ExistingRelease => "error handler 2 ExistingRelease\n",
        HandlerError::AlreadyInstalled => "error handler 3 AlreadyInstalled\n",
        HandlerError::Permanent => "error handler 5 Permanent\n",
        HandlerError::Running => "error handler 6 Running\n",
        HandlerError::TooMany => "error handler 12 TooMany\n",
        HandlerError::NoMatchingRelup => "error handler 13 NoMatchingRelup\n",
        HandlerError::Device => "error handler 16 Device\n",
        HandlerError::Full => "error handler 17 Full\n",
        HandlerError::Dead => "error handler 18 Dead\n",
        HandlerError::NoMemory => "error handler 19 NoMemory\n",
        HandlerError::Exists => "error handler 20 Exists\n",
    };
    String::from_str(alloc, line)
}

// The line of a refusal with this number and name, and a detail.
fn with_detail(alloc: Global, refusal: &str, detail: &str) -> Result<String, AllocError>
    ensures { IfOk result (λ s. string_bytes s
        ≡ codes "error handler " ++ (refusal.now ++ (codes " " ++ (detail.now ++ codes "\n")))) }
{
    format!(in alloc; "error handler {refusal} {detail}\n")
}
