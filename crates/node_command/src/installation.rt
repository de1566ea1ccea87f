// The script of an installation.
ghost use Rattle.std.specs.Prelude.{◌≡◌, Ok, Err, MatchResult};
ghost use Rattle.std.specs.Option.{option_map};
ghost use Rattle.node_command.specs.Installing.{installation, script_to};
ghost use Rattle.relup_file.specs.Search.{found_of};

use crate::HandlerError;
use rel_list::ReleaseList;
use relup_file::{Found, find_script};

/// The script by which the release of this version is installed: the upgrade from the running version in its relup, or else the
/// downgrade to it in the relup of the release that runs (OTP: release_handler:check_install_release/1). It takes no memory.
///
/// Refusals, in this order: `BadStatus` beside a one-shot; `NoSuchRelease`, `AlreadyInstalled`; `NoMatchingRelup`.
pub fn find_installation<'a>(list: &'a ReleaseList, vsn: &str) -> Result<Found<'a>, HandlerError>
    ensures { MatchResult result
        (λ found. installation vsn.now list.now ≡ Ok (found_of found))
        (λ why. installation vsn.now list.now ≡ Err why) }
{
    if let Some(why) = list.install_refusal(vsn) {
        return Err(HandlerError::from(why));
    }
    match script_to(list, vsn) {
        Some(found) => Ok(found),
        None => Err(HandlerError::NoMatchingRelup),
    }
}

// The script from the release that runs to the one of this version.
fn script_to<'a>(list: &'a ReleaseList, vsn: &str) -> Option<Found<'a>>
    ensures { option_map found_of result ≡ script_to vsn.now list.now }
{
    let running = list.running()?.vsn.as_str();
    find_script(vsn, list.relup(vsn), running, list.relup(running)).ok()
}
