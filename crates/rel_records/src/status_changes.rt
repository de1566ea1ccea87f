// Which statuses one event says.
ghost use Rattle.std.specs.Prelude.{◌≡◌};
ghost use Rattle.rel_records.specs.StatusChanges.{are_installed, each_is, are_of_one_event, how_many_are, is_booted, is_installed, is_left, is_left_or_changed, is_promoted, is_replaced, is_unsaid};

use rel_list::Status;

// Whether one event says this of releases that have these statuses, each at its place, or nothing is said of any. What stands
// before is as records report it: a release that is current, as unpacked. Of lists of two lengths, what both have is compared.
pub(crate) fn are_of_one_event(before: &[Status], said: &[Option<Status>]) -> bool
    ensures { result ≡ are_of_one_event before.now said.now }
{
    are_unsaid(before, said)
        || are_booted(before, said)
        || are_installed(before, said)
        || are_promoted(before, said)
}

fn are_unsaid(before: &[Status], said: &[Option<Status>]) -> bool
    ensures { result ≡ each_is is_unsaid before.now said.now }
{
    before.iter().zip(said).all(|(s, o)| is_unsaid(*s, *o))
}

fn are_booted(before: &[Status], said: &[Option<Status>]) -> bool
    ensures { result ≡ each_is is_booted before.now said.now }
{
    before.iter().zip(said).all(|(s, o)| is_booted(*s, *o))
}

fn are_promoted(before: &[Status], said: &[Option<Status>]) -> bool
    ensures { result ≡ each_is is_promoted before.now said.now }
{
    before.iter().zip(said).all(|(s, o)| is_promoted(*s, *o))
}

// Whether an installation says this.
fn are_installed(before: &[Status], said: &[Option<Status>]) -> bool
    ensures { result ≡ are_installed before.now said.now }
{
    are_left_or_changed(before, said)
        && count_installed(before, said) <= 1
        && count_replaced(before, said) <= 1
}

fn are_left_or_changed(before: &[Status], said: &[Option<Status>]) -> bool
    ensures { result ≡ each_is is_left_or_changed before.now said.now }
{
    before
        .iter()
        .zip(said)
        .all(|(s, o)| is_left_or_changed(*s, *o))
}

fn count_installed(before: &[Status], said: &[Option<Status>]) -> usize
    ensures { result ≡ how_many_are is_installed before.now said.now }
{
    let pairs = before.iter().zip(said);
    pairs.filter(|p| is_installed(*p.0, *p.1)).count()
}

fn count_replaced(before: &[Status], said: &[Option<Status>]) -> usize
    ensures { result ≡ how_many_are is_replaced before.now said.now }
{
    let pairs = before.iter().zip(said);
    pairs.filter(|p| is_replaced(*p.0, *p.1)).count()
}

fn is_unsaid(before: Status, said: Option<Status>) -> bool
    ensures { result ≡ is_unsaid before said }
{
    let _status = before;
    said.is_none()
}

// Whether a boot says this of a release.
fn is_booted(before: Status, said: Option<Status>) -> bool
    ensures { result ≡ is_booted before said }
{
    match before {
        Status::OneShot => matches!(said, Some(Status::Unpacked)),
        _ => is_left(before, said),
    }
}

// Whether an installation leaves it so.
fn is_left(before: Status, said: Option<Status>) -> bool
    ensures { result ≡ is_left before said }
{
    said.is_none() && matches!(before, Status::Unpacked | Status::Old | Status::Permanent)
}

fn is_left_or_changed(before: Status, said: Option<Status>) -> bool
    ensures { result ≡ is_left_or_changed before said }
{
    is_left(before, said) || is_installed(before, said) || is_replaced(before, said)
}

// Whether an installation says this of the release that it installs.
fn is_installed(before: Status, said: Option<Status>) -> bool
    ensures { result ≡ is_installed before said }
{
    matches!(before, Status::Unpacked | Status::Old)
        && matches!(said, Some(Status::Unpacked | Status::OneShot))
}

// Whether an installation says this of the one that was current.
fn is_replaced(before: Status, said: Option<Status>) -> bool
    ensures { result ≡ is_replaced before said }
{
    matches!((before, said), (Status::Unpacked, Some(Status::Old)))
}

// Whether an event that makes another release permanent says this.
fn is_promoted(before: Status, said: Option<Status>) -> bool
    ensures { result ≡ is_promoted before said }
{
    matches!(
        (before, said),
        (
            Status::Unpacked | Status::Old,
            None | Some(Status::Permanent)
        ) | (Status::Permanent, Some(Status::Old))
    )
}
